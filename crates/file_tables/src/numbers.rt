//! The numbers that inodes get.

ghost use Rattle.std.specs.Prelude.{◌≡◌, ◌+◌, IfOk, OnOk};
ghost use Rattle.file_tables.specs.Numbers.{given, new_number};

use crate::state::InodeNumbers;
use kernel_values::OutOfMemory;

/// One more than the greatest inode number.
const NUMBERS_END: u64 = 0x8000_0000_0000_0000;

impl InodeNumbers {
    /// Gives the least number that no line of the image names and that wasn't given. It takes no memory: an Err would say that
    /// no number is left, and there are more numbers than can be given.
    #[tactic(auto, unfolding(crate::specs::Numbers::new_number, crate::specs::Numbers::given))]
    pub fn take(&mut self) -> Result<u64, OutOfMemory>
        ensures number { IfOk result (λ i. i ≡ new_number self.old) }
        ensures after { OnOk result (self.new ≡ given self.old) }
    {
        let Some(number) = self.image.first_free(self.next, NUMBERS_END) else {
            return Err(OutOfMemory);
        };
        self.next = number + 1;
        Ok(number)
    }
}
