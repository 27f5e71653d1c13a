//! Names from one layout to the other.

ghost use Rattle.std.specs.Prelude.{◌≡◌};
ghost use Rattle.dns_wire.specs.Names.{name_labels};
ghost use Rattle.dns_wire.specs.Reversed.{reversed_name_labels};

use crate::name::Name;
use crate::name_buf::NameBuf;
use crate::relative_name::copy_before;
use crate::rev_name::RevName;
use crate::rev_name_buf::RevNameBuf;

impl<'a> Name<'a> {
    /// The name from the root on.
    pub fn to_revname(&self) -> RevNameBuf
        ensures { result ≡ name_labels self.now.slice.now }
    {
        let labels = self.relative();
        let mut buffer = [0; RevName::MAX_SIZE];
        labels.put_reversed(&mut buffer, RevName::MAX_SIZE);
        let offset = RevName::MAX_SIZE - labels.slice.len();
        copy_before(&[0], &mut buffer, offset);
        RevNameBuf::from_buffer(buffer, offset - 1)
    }
}

impl<'a> RevName<'a> {
    /// The name with its first label first.
    pub fn to_name(&self) -> NameBuf
        ensures { result ≡ reversed_name_labels self.now.slice.now }
    {
        let mut buffer = [0; Name::MAX_SIZE];
        let size = self.put_forward(&mut buffer, 0);
        NameBuf::from_buffer(buffer, size)
    }
}

impl From<NameBuf> for RevNameBuf {
    ghost from_gives = { λ name reversed. reversed ≡ name };

    fn from(name: NameBuf) -> RevNameBuf {
        name.as_name().to_revname()
    }
}

impl From<RevNameBuf> for NameBuf {
    ghost from_gives = { λ reversed name. name ≡ reversed };

    fn from(name: RevNameBuf) -> NameBuf {
        name.as_revname().to_name()
    }
}
