//! Open files and the descriptors that name them, with the pipes among them: an operation for each call that needs no more.
#![tactic(auto)]

mod accepting;
mod descriptors;
mod flags;
mod holding;
mod items;
mod kinds;
mod made;
mod new_sockets;
mod numbers;
mod piping;
mod readiness;
mod sockets;
mod state;
mod transfers;

pub use accepting::Accepted;
pub use descriptors::number_of;
pub use flags::CLOSE_ON_EXEC;
pub use items::OpenCursor;
pub use kinds::{is_of_directory, is_of_file, is_of_pipe, is_of_socket, lacks_position};
pub use made::Made;
pub use readiness::Ready;
pub use state::{Descriptor, OpenFile, OpenFiles, Place};
pub use transfers::place_of;
