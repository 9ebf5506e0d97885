// What it is to be a measure.
ghost use Rattle.std.specs.Prelude.{◌≡◌, ℕ, List, replicate, is_some, Option};
ghost use Rattle.std.specs.Option.{unwrap_or};

use crate::invoices::Invoice;

pub trait Measure: Sized {
    // how many numbers a measure has
    ghost count: { ℕ };

    // the numbers that a measure means
    ghost numbers: { Self → List ℕ };

    // the numbers after an invoice of this amount and these categories, none where it does not fit
    ghost counted: { List ℕ → ℕ → List ℕ → Option (List ℕ) };

    // A measure that has counted nothing.
    fn zero() -> Self
        ensures { numbers result ≡ replicate count 0 };

    // Whether an invoice fits.
    fn fits(&self, invoice: &Invoice) -> bool
        ensures { result ≡ is_some (counted (numbers self.now) invoice.now.amount invoice.now.categories.now) };

    // Counts an invoice; one that does not fit is ignored.
    fn add(&mut self, invoice: &Invoice)
        ensures { numbers self.new ≡ unwrap_or (counted (numbers self.old) invoice.now.amount invoice.now.categories.now) (numbers self.old) };
}
