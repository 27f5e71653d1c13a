//! Labels as a hasher sees them: equal labels feed it the same octets.

ghost use Rattle.std.specs.Prelude.{◌≡◌, fold};
ghost use Rattle.dns_label.specs.Labels.{contents_of};
ghost use Rattle.dns_label.specs.Hashing.{label_writes, same_labels_alike};

use crate::label::Label;
use crate::label_buf::LabelBuf;
use std::hash::{Hash, Hasher};

impl Hash for Label<'_> {
    ghost hash_input = { λ v. label_writes (contents_of v.slice.now) };

    ghost respects_eq = { λ a b same. same_labels_alike (contents_of a.slice.now) (contents_of b.slice.now) same };

    /// Feeds the length octet and the contents in lowercase, in one write.
    fn hash<H: Hasher>(&self, state: &mut H) {
        let mut lowered = self.to_buf();
        lowered.make_lowercase();
        state.write(lowered.as_label().as_wire());
    }
}

impl Hash for LabelBuf {
    ghost hash_input = { label_writes };

    ghost respects_eq = { same_labels_alike };

    /// Feeds what the label as a view feeds.
    fn hash<H: Hasher>(&self, state: &mut H) {
        self.as_label().hash(state);
    }
}
