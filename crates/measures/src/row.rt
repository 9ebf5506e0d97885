// A row of sums, one for each category id.
ghost use Rattle.std.specs.Prelude.{◌≡◌, Some};
ghost use Rattle.std.specs.Bool.{then_some};
ghost use Rattle.std.specs.Option.{option_map};
ghost use Rattle.measures.specs.Categories.{categories_of};
ghost use Rattle.measures.specs.Counted.{category_fits, category_added, row_after};

use crate::categories::{Category, each_category};
use crate::sizes::ID_COUNT;
use crate::sums::Sum;

// A row of sums, that of id 1 first.
pub type Row = Sum<[u64; ID_COUNT]>;

impl Row {
    // The numbers at which the row stands, that of id 1 first: its value, by the name that says how many.
    pub fn values(&self) -> [u64; ID_COUNT]
        ensures { result ≡ self.now.value }
    {
        self.value()
    }
}

// Adds all categories to the numbers of their ids; none where one does not fit, and then those before it are added.
pub(crate) fn add_all(values: &mut [u64; ID_COUNT], bytes: &[u8]) -> Option<()>
    ensures { option_map (λ _. values.new) result ≡ row_after (categories_of bytes.now) values.old }
{
    for category in each_category(bytes) {
        add_category(values, Category::from(category))?;
    }
    Some(())
}

// Adds a category's amount to the number of its id; none where it does not fit, and then nothing is added.
fn add_category(values: &mut [u64; ID_COUNT], category: Category) -> Option<()>
    ensures value { result ≡ then_some (category_fits category values.old) tt }
    ensures after { result ≡ Some tt → values.new ≡ category_added category values.old }
{
    if !category.is_known() {
        return None;
    }
    let place = usize::from(category.id) - 1;
    let sum = values[place].checked_add(category.amount)?;
    values[place] = sum;
    Some(())
}
