//! Writing lists in a message.

ghost use Rattle.std.specs.Prelude.{None};
ghost use Rattle.dns_wire.specs.InMessage.{list_fits};
ghost use Rattle.dns_wire.specs.Layout.{list_writes};

use crate::compression::NameCompressor;
use crate::error::TruncationError;
use crate::in_message::BuildInMessage;

/// The values, one after another.
impl<T: BuildInMessage> BuildInMessage for &[T] {
    ghost writes = { λ v. list_writes T.writes v.now };

    ghost fits_in = { λ v. list_fits T.fits_in T.writes v.now };

    ghost layout_matches = { λ _. tt };

    fn build_in_message(
        &self,
        contents: &mut [u8],
        start: usize,
        compressor: &mut NameCompressor,
    ) -> Result<usize, TruncationError> {
        T::build_all_in_message(self, contents, start, compressor)
    }
}

/// The values, one after another.
impl<T: BuildInMessage, const N: usize> BuildInMessage for [T; N] {
    ghost writes = { λ v. list_writes T.writes v };

    ghost fits_in = { λ v. list_fits T.fits_in T.writes v };

    ghost layout_matches = { λ _. tt };

    fn build_in_message(
        &self,
        contents: &mut [u8],
        start: usize,
        compressor: &mut NameCompressor,
    ) -> Result<usize, TruncationError> {
        T::build_all_in_message(self, contents, start, compressor)
    }
}

/// The values, one after another.
impl<T: BuildInMessage> BuildInMessage for Vec<T> {
    ghost writes = { λ v. list_writes T.writes v.items };

    ghost fits_in = { λ v. list_fits T.fits_in T.writes v.items };

    ghost layout_matches = { λ _. tt };

    fn build_in_message(
        &self,
        contents: &mut [u8],
        start: usize,
        compressor: &mut NameCompressor,
    ) -> Result<usize, TruncationError> {
        T::build_all_in_message(self.as_slice(), contents, start, compressor)
    }
}
