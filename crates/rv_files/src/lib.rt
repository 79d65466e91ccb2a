//! Files and folders of the system, and what the system says where one fails.
//!
//! An input is opened when it is first read, an output is made once its bytes are known, and a file that is made anew is always a whole
//! text. No contract of the system's says which bytes a file has.
#![tactic(auto)]

pub mod files;
pub mod folder;
pub mod kept_file;
pub mod system;
