//! Names in a message: the longest suffix that is there already is a pointer.

ghost use Rattle.std.specs.Prelude.{[], ◌∷◌, Some, ⊤};
ghost use Rattle.dns_wire.specs.Compression.{compressed_name_writes};
ghost use Rattle.dns_wire.specs.Names.{name_labels};
ghost use Rattle.dns_wire.specs.Layout.LayoutPart.{NamePart};
ghost use Rattle.dns_wire.specs.Reversed.{reversed_name_labels};
ghost use Rattle.dns_wire.specs.LayoutLemmas.{part_matches};

use crate::name::Name;
use crate::name_buf::NameBuf;
use crate::rev_name::RevName;
use crate::rev_name_buf::RevNameBuf;
use dns_wire::{BuildInMessage, NameCompressor, TruncationError, put_name};

impl BuildInMessage for Name<'_> {
    ghost writes = { λ v. compressed_name_writes (name_labels v.slice.now) };

    ghost layout = { λ v. Some (NamePart (name_labels v.slice.now) ∷ []) };

    ghost layout_matches = { λ v. part_matches (NamePart (name_labels v.slice.now)) };

    fn build_in_message(
        &self,
        contents: &mut [u8],
        start: usize,
        compressor: &mut NameCompressor,
    ) -> Result<usize, TruncationError> {
        put_name(self.as_bytes(), contents, start, compressor)
    }
}

impl BuildInMessage for NameBuf {
    ghost writes = { compressed_name_writes };

    ghost layout = { λ v. Some (NamePart v ∷ []) };

    ghost layout_matches = { λ v. part_matches (NamePart v) };

    fn build_in_message(
        &self,
        contents: &mut [u8],
        start: usize,
        compressor: &mut NameCompressor,
    ) -> Result<usize, TruncationError> {
        self.as_name().build_in_message(contents, start, compressor)
    }
}

/// The octets of the name with its first label first, and the places of its labels.
impl BuildInMessage for RevName<'_> {
    ghost writes = { λ v. compressed_name_writes (reversed_name_labels v.slice.now) };

    ghost layout = { λ v. Some (NamePart (reversed_name_labels v.slice.now) ∷ []) };

    ghost layout_matches = { λ v. part_matches (NamePart (reversed_name_labels v.slice.now)) };

    fn build_in_message(
        &self,
        contents: &mut [u8],
        start: usize,
        compressor: &mut NameCompressor,
    ) -> Result<usize, TruncationError> {
        self.to_name().build_in_message(contents, start, compressor)
    }
}

/// The octets of the name with its first label first, and the places of its labels.
impl BuildInMessage for RevNameBuf {
    ghost writes = { compressed_name_writes };

    ghost layout = { λ v. Some (NamePart v ∷ []) };

    ghost layout_matches = { λ v. part_matches (NamePart v) };

    fn build_in_message(
        &self,
        contents: &mut [u8],
        start: usize,
        compressor: &mut NameCompressor,
    ) -> Result<usize, TruncationError> {
        self.as_revname()
            .build_in_message(contents, start, compressor)
    }
}
