// A card image in words: personalised, kept in both stores, changed and read again.
use anyhow::anyhow;
use image::{Image, personalise};
use image_words::InWords;
use std::fmt;
use stores::{FLAT_SIZE, FlatStore, IMAGE_SIZE, RECORD_SIZE, Store, TapeStore};

// The card that is shown.
const PIN: &[u8] = b"1234";

const LIMIT: u64 = 1000000;

const KEY_VERSION: u32 = 7;

// Prints a personalised image, and what becomes of it in a flat store and in a tape store.
pub(crate) fn show_image(rt: &HostRuntime) -> anyhow::Result<()> {
    let mut first = [0; IMAGE_SIZE];
    personalise(PIN, LIMIT, KEY_VERSION, &mut first).map_err(|e| anyhow!(
        "personalisation is refused: {e}"
    ))?;
    println!(rt; "an image of {IMAGE_SIZE} bytes, personalised:")?;
    print_image(rt, &first)?;
    let next = spend_try(&first)?;
    show_flat(rt, &first, &next)?;
    show_tape(rt, &first, &next)
}

// Prints the image in bytes, or their flaw.
fn print_image(rt: &HostRuntime, bytes: &[u8]) -> anyhow::Result<()> {
    match Image::read(bytes) {
        Ok(image) => println!(rt; "{}", InWords(&image))?,
        Err(flaw) => println!(rt; "not sound: {flaw}")?,
    }
    Ok(())
}

// The image in bytes with one PIN try less.
fn spend_try(bytes: &[u8]) -> anyhow::Result<[u8; IMAGE_SIZE]> {
    let mut image = Image::read(bytes).map_err(|flaw| anyhow!("the image is not sound: {flaw}"))?;
    image.tries = image.tries.saturating_sub(1);
    let mut next = [0; IMAGE_SIZE];
    image
        .write(&mut next)
        .map_err(|e| anyhow!("writing the image is refused: {e}"))?;
    Ok(next)
}

// Keeps an image in a flat store with one write left, and then another.
fn show_flat(rt: &HostRuntime, first: &[u8], next: &[u8]) -> anyhow::Result<()> {
    let mut memory = [0; FLAT_SIZE];
    FlatStore::lay(&mut memory, first, 1).map_err(|e| anyhow!("laying is refused: {e}"))?;
    let mut store = FlatStore::new(&mut memory);
    show_store(rt, "flat", &mut store, |store| store.writes_left(), next)
}

// Keeps an image in a tape store of two records, and then another. What is one of both is `show_store`: the laying
// differs.
fn show_tape(rt: &HostRuntime, first: &[u8], next: &[u8]) -> anyhow::Result<()> {
    let mut memory = [0; 2 * RECORD_SIZE];
    TapeStore::lay(&mut memory, first).map_err(|e| anyhow!("laying is refused: {e}"))?;
    let mut store = TapeStore::new(&mut memory);
    show_store(rt, "tape", &mut store, |store| store.writes_left(), next)
}

// Writes an image to a store twice, and prints whether it did, the writes left before and after, and what is stored.
fn show_store<S: Store, N: fmt::Display + Drop, L: Fn(&S) -> N>(
    rt: &HostRuntime,
    kind: &str,
    store: &mut S,
    left: L,
    image: &[u8],
) -> anyhow::Result<()>
    requires { L.IsAlwaysCallable left }
{
    println!(rt; "\n{kind} store, laid: writes left {}", left(store))?;
    let written = store.write(image).is_ok();
    println!(rt; "written: {written}")?;
    let again = store.write(image).is_ok();
    println!(rt; "written again: {again}")?;
    println!(rt; "writes left {}", left(store))?;
    let mut bytes = [0; IMAGE_SIZE];
    store
        .read(&mut bytes)
        .map_err(|e| anyhow!("reading the store is refused: {e}"))?;
    print_image(rt, &bytes)
}
