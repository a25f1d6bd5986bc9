//! The closing of all descriptors, when a process ends.

ghost use Rattle.std.specs.Prelude.{◌≡◌};
ghost use Rattle.file_store.specs.Closing.{close_all, lowest_closed};

use crate::state::Files;

impl Files {
    fn close_lowest(&mut self)
        ensures { self.new ≡ lowest_closed self.old self.old.open_files.descriptors }
    {
        if let Some((number, held)) = self.open_files.lowest() {
            self.drop_descriptor(number, held.serial);
        }
    }

    /// Closes all descriptors, in ascending order: open files end with their last descriptor, and pipes and files without a name
    /// with their last open file. It takes no memory.
    #[tactic(auto, unfolding(crate::specs::Closing::close_all), using(crate::proofs::Closings::none_left, crate::proofs::Closings::one_more))]
    pub fn close_all(&mut self)
        ensures { self.new ≡ close_all self.old }
    {
        let count = self.open_files.len();
        for closed in 0..count {
            self.close_lowest();
        }
    }
}
