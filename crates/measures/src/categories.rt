// The categories in the bytes of an invoice: the id of one byte, and the amount of seven.
ghost use Rattle.std.specs.Prelude.{◌≡◌, map};
ghost use Rattle.measures.specs.Categories.{category_at, categories_of, id_known, ids_known};

use crate::sizes::{CATEGORY_SIZE, ID_COUNT};
use octets::read_be;

#[derive(Clone, Copy)]
pub struct Category {
    pub id: u8,
    pub amount: u64,
}

impl Category {
    // Whether the id is one of those that a category can have.
    pub(crate) fn is_known(&self) -> bool
        ensures { result ≡ id_known self.now.id }
    {
        (1..=ID_COUNT).contains(&usize::from(self.id))
    }
}

// The category in its bytes.
impl From<&[u8; CATEGORY_SIZE]> for Category {
    ghost from_gives = { λ b c. c ≡ category_at 0 b.now };

    fn from(bytes: &[u8; CATEGORY_SIZE]) -> Category {
        Category {
            id: bytes[0],
            amount: read_be(&bytes[1..]).unwrap(),
        }
    }
}

// The bytes of each category; those at the end that are fewer than a category has are left out.
pub(crate) fn each_category(bytes: &[u8]) -> &[[u8; CATEGORY_SIZE]]
    ensures { map (category_at 0) result.now ≡ categories_of bytes.now }
{
    let (categories, _) = bytes.as_chunks();
    categories
}

// Whether the id of every category is known.
pub(crate) fn are_ids_known(categories: &[[u8; CATEGORY_SIZE]]) -> bool
    ensures { result ≡ ids_known (map (category_at 0) categories.now) }
{
    categories
        .iter()
        .map(Category::from)
        .all(|category| category.is_known())
}
