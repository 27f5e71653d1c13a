//! What records of borrowed names write in a message, at the types that `example_answer` builds.

ghost use Rattle.std.specs.Prelude.{◌≡◌, [], ◌∷◌};
ghost use Rattle.dns_record.specs.Fields.FieldOf.{CompressibleName, OtherOctets};
ghost use Rattle.dns_message.specs.Built.{built};

use dns_basic::{CName, Ns};
use dns_message::records_with_layouts_are_built;
use dns_name::NameBuf;
use dns_plain::{A, Aaaa};
use dns_record::Record;
use dns_wire::BuildInMessage;

/// A record with a borrowed owner and an alias, a name server or an address writes in a message what a record of these fields does, its
/// names compressed. So the laws on built records hold of it (RFC 1035 section 4.1.4).
pub fn records_of_borrowed_names()
    ensures cname { (r : _) → ⟦<Record<&'static NameBuf, CName<&'static NameBuf>> as BuildInMessage>⟧.writes r
        ≡ built (record { owner = r.rname.now; rtype = r.rtype.code.value; class = r.rclass.code.value; ttl = r.ttl.value.value; content = CompressibleName r.rdata.name.now ∷ [] }) }
    ensures ns { (r : _) → ⟦<Record<&'static NameBuf, Ns<&'static NameBuf>> as BuildInMessage>⟧.writes r
        ≡ built (record { owner = r.rname.now; rtype = r.rtype.code.value; class = r.rclass.code.value; ttl = r.ttl.value.value; content = CompressibleName r.rdata.server.now ∷ [] }) }
    ensures a { (r : _) → ⟦<Record<&'static NameBuf, A> as BuildInMessage>⟧.writes r
        ≡ built (record { owner = r.rname.now; rtype = r.rtype.code.value; class = r.rclass.code.value; ttl = r.ttl.value.value; content = OtherOctets r.rdata.octets ∷ [] }) }
    ensures aaaa { (r : _) → ⟦<Record<&'static NameBuf, Aaaa> as BuildInMessage>⟧.writes r
        ≡ built (record { owner = r.rname.now; rtype = r.rtype.code.value; class = r.rclass.code.value; ttl = r.ttl.value.value; content = OtherOctets r.rdata.octets ∷ [] }) }
{
    records_with_layouts_are_built::<&NameBuf, CName<&NameBuf>>();
    records_with_layouts_are_built::<&NameBuf, Ns<&NameBuf>>();
    records_with_layouts_are_built::<&NameBuf, A>();
    records_with_layouts_are_built::<&NameBuf, Aaaa>();
}
