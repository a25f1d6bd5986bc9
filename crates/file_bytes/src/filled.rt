//! How many pages hold a byte other than 0.

ghost use Rattle.std.specs.Prelude.{◌≡◌, ℕ, ◌≤◌, ◌^◌};
ghost use Rattle.file_bytes.specs.Pages.{byte_at};
ghost use Rattle.file_bytes.specs.Filled.{filled_of};

use crate::pages::Pages;

impl Pages {
    /// How many pages hold a byte other than 0.
    pub fn filled_pages(&self) -> u64
        ensures count { result ≡ filled_of (byte_at self.now.map.entries) (2 ^ 28) }
        ensures limit { result ≤ 2 ^ 28 }
    {
        let mut count = 0;
        let mut next = 0;
        while let Some((number, page)) = self.page_from(next) {
            if page.is_filled() {
                count += 1;
            }
            next = number + 1;
        }
        count
    }
}
