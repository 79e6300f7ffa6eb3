//! Protocols, as the option `--protocols` lists them.

use std::fmt;

/// The numbers of protocols, with a comma between each two.
#[derive(Clone, Copy)]
pub(crate) struct Listed<'a>(pub &'a [u8]);

impl fmt::Display for Listed<'_> {
    fn fmt<W: fmt::Write>(&self, f: &mut fmt::Formatter<W>) -> fmt::Result {
        let mut between = "";
        for protocol in self.0 {
            let protocol = *protocol;
            write!(f, "{between}0x{protocol:02x}")?;
            between = ",";
        }
        Ok(())
    }
}
