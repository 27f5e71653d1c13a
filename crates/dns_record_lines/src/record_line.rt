//! The line for a record.

ghost use Rattle.std.specs.Prelude.{◌≡◌, ◌≢◌, ◌<◌, ◌^◌, ◌++◌, ◌∷◌, [], OnOk};
ghost use Rattle.dns_wire.specs.Reading.{AreOctets};
ghost use Rattle.dns_record.specs.Types.{opt_number};
ghost use Rattle.dns_record_lines.specs.RecordLines.{IsRecord, class_and_type, digits, field, record_line};

use dns_message::CanonicalForm;
use dns_text::{push_hex_field, push_hex_line};
use std::alloc::AllocError;

/// The class and the type of a record, in two octets each.
fn class_and_type(form: &CanonicalForm<'_>) -> [u8; 4]
    ensures octets { result ≡ class_and_type form.now }
    ensures class { form.now.class < 2 ^ 16 }
    ensures rtype { form.now.rtype < 2 ^ 16 }
{
    let [class_high, class_low] = form.rclass().code.get().to_be_bytes();
    let [type_high, type_low] = form.rtype().code.get().to_be_bytes();
    [class_high, class_low, type_high, type_low]
}

/// Adds the four fields of a line, and LF, to a text.
fn push_fields(
    key: &[u8],
    class_and_type: &[u8],
    rdata: &[u8],
    ttl: &[u8],
    text: &mut Vec<u8>,
) -> Result<(), AllocError>
    ensures added { OnOk result (text.new.items ≡ text.old.items ++ (field key.now (field class_and_type.now (field rdata.now (digits ttl.now))) ++ 10 ∷ [])) }
    ensures octets { AreOctets key.now × AreOctets rdata.now }
{
    push_hex_field(key, text)?;
    push_hex_field(class_and_type, text)?;
    push_hex_field(rdata, text)?;
    push_hex_line(ttl, text)
}

/// Adds the line for a record, and LF, to a text: the key of its owner, its class and type, the canonical octets of its data, and its TTL, in
/// hexadecimal digits and with a space between two of the four. It has at most 131,600 octets. `AllocError` is out of memory; part of the line
/// is then added.
pub fn push_record_line(form: &CanonicalForm<'_>, text: &mut Vec<u8>) -> Result<(), AllocError>
    ensures added { OnOk result (text.new.items ≡ text.old.items ++ (record_line form.now ++ 10 ∷ [])) }
    ensures record { form.now.rtype ≢ opt_number → IsRecord form.now }
{
    let class_and_type = class_and_type(form);
    let ttl = form.ttl().as_secs().to_be_bytes();
    push_fields(form.owner_key(), &class_and_type, form.data(), &ttl, text)
}
