//! Certificates that are read and kept: their points with their plans, trees and marks.
//!
//! Read `kept` first (what the readings answer). A certificate is built from its lines by `numbers`, `placing`, `growing`,
//! `outline` and `assembly`; `gatherer` reads and builds, `cut_reader`, `cert_reader` and `whole` give what was read, and `laws`
//! says why it is the certificate.
#![tactic(auto)]

mod assembly;
mod cert_reader;
mod cut_reader;
mod gatherer;
mod growing;
mod kept;
mod laws;
mod numbers;
mod outline;
mod placing;
mod whole;

pub use cert_reader::{CertReader, TooLong};
pub use cut_reader::CutReader;
pub use kept::{CertRead, CutRead};
pub use laws::lines_build_back;
pub use whole::{read_cert, read_cut};
