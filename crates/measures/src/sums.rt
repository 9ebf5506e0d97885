// Sums over invoices: a count of them, the sum of their amounts, and a row of sums, one for each category id.
ghost use Rattle.std.specs.Prelude.{◌≡◌, ℕ, List, [], ◌∷◌, replicate, Option};
ghost use Rattle.std.specs.Option.{option_map};
ghost use Rattle.measures.specs.Counted.{number_counted, money_counted, row_counted};
ghost use Rattle.measures.specs.Sizes.{id_count};

use crate::invoices::Invoice;
use crate::measures::Measure;
use crate::row::add_all;
use crate::sizes::ID_COUNT;

// What a sum is kept in, and what an invoice adds to it. Its members are those of `Measure`, which asks no `Copy`.
pub trait Addend: Copy {
    // how many numbers it has
    ghost count: { ℕ };

    // the numbers
    ghost numbers: { Self → List ℕ };

    // the numbers after an invoice of this amount and these categories, none where it does not fit
    ghost counted: { List ℕ → ℕ → List ℕ → Option (List ℕ) };

    // The sum over no invoice.
    fn zero() -> Self
        ensures { numbers result ≡ replicate count 0 };

    // The sum after an invoice; none where it does not fit.
    fn plus(self, invoice: &Invoice) -> Option<Self>
        ensures { option_map numbers result ≡ counted (numbers self) invoice.now.amount invoice.now.categories.now };
}

// A u32 counts each invoice as 1.
impl Addend for u32 {
    ghost count = { 1 };

    ghost numbers = { λ v. v ∷ [] };

    ghost counted = { number_counted };

    fn zero() -> u32 {
        0
    }

    fn plus(self, _invoice: &Invoice) -> Option<u32> {
        self.checked_add(1)
    }
}

// A u64 adds up the amounts.
impl Addend for u64 {
    ghost count = { 1 };

    ghost numbers = { λ v. v ∷ [] };

    ghost counted = { money_counted };

    fn zero() -> u64 {
        0
    }

    fn plus(self, invoice: &Invoice) -> Option<u64> {
        self.checked_add(invoice.amount)
    }
}

// Twelve u64s add up the amounts of each category id, that of id 1 first.
impl Addend for [u64; ID_COUNT] {
    ghost count = { id_count };

    ghost numbers = { λ v. v };

    ghost counted = { row_counted };

    fn zero() -> [u64; ID_COUNT] {
        [0; ID_COUNT]
    }

    fn plus(mut self, invoice: &Invoice) -> Option<[u64; ID_COUNT]> {
        add_all(&mut self, invoice.categories)?;
        Some(self)
    }
}

#[derive(Clone, Copy)]
pub struct Sum<T> {
    value: T,
}

// A count of invoices.
pub type Number = Sum<u32>;

// A sum of amounts.
pub type Money = Sum<u64>;

impl<T: Addend> Sum<T> {
    // A sum that stands at a value.
    pub fn new(value: T) -> Sum<T>
        ensures { result.value ≡ value }
    {
        Sum { value }
    }

    // The value at which the sum stands.
    pub fn value(&self) -> T
        ensures { result ≡ self.now.value }
    {
        self.value
    }
}

impl<T: Addend> Measure for Sum<T> {
    ghost count = { T.count };

    ghost numbers = { λ s. T.numbers s.value };

    ghost counted = { T.counted };

    fn zero() -> Sum<T> {
        Sum { value: T::zero() }
    }

    fn fits(&self, invoice: &Invoice) -> bool {
        self.value.plus(invoice).is_some()
    }

    fn add(&mut self, invoice: &Invoice) {
        if let Some(value) = self.value.plus(invoice) {
            self.value = value;
        }
    }
}
