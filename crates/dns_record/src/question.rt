//! Questions.

ghost use Rattle.dns_record.specs.DataLemmas.{question_leaves, question_ends};
ghost use Rattle.std.specs.Prelude.{◌≡◌, [], ◌++◌, length};
ghost use Rattle.std.specs.Int.{w16, to_be_bytes};
ghost use Rattle.std.specs.Fn.{FnOnceTakesAt, FnOnceReturnsAt};
ghost use Rattle.dns_record.specs.InMessage.{question_writes};
ghost use Rattle.dns_record.specs.Questions.{QuestionOf, question_at, question_in};
ghost use Rattle.dns_record.specs.Seen.{question_seen};

use crate::qclass::QClass;
use crate::qtype::QType;
use dns_wire::{
    BuildBytes, BuildInMessage, NameCompressor, ParseBytes, ParseError, ParseMessageBytes,
    SplitBytes, SplitMessageBytes, TruncationError, whole, whole_message,
};

/// A question of a message: a name, a type and a class (RFC 1035 section 4.1.2).
///
/// ```
/// let name = NameBuf::from_str("www.example.org.")?;
/// let question = Question::new(&name, QType::AAAA, QClass::IN);
/// ```
#[derive(Clone, Debug, PartialEq, Eq, Hash, Drop)]
pub struct Question<N> {
    /// The name that is asked for.
    pub qname: N,
    /// The type that is asked for.
    pub qtype: QType,
    /// The class that is asked for.
    pub qclass: QClass,
}

impl<N> Question<N> {
    /// The question of these parts.
    pub fn new(qname: N, qtype: QType, qclass: QClass) -> Question<N>
        ensures { result ≡ record { qname = qname; qtype = qtype; qclass = qclass } }
    {
        Question {
            qname,
            qtype,
            qclass,
        }
    }

    /// The question with what the function makes of its name.
    pub fn transform<NN, F: FnOnce(N) -> NN>(self, name_map: F) -> Question<NN>
        requires { F.pre name_map self.qname }
        ensures name { F.post name_map self.qname result.qname }
        ensures unchanged { (result.qtype ≡ self.qtype) × (result.qclass ≡ self.qclass) }
    {
        Question {
            qname: name_map(self.qname),
            qtype: self.qtype,
            qclass: self.qclass,
        }
    }

    /// The question with what the function makes of a reference to its name.
    pub fn transform_ref<'a, NN, F: FnOnce(&'a N) -> NN>(&'a self, name_map: F) -> Question<NN>
        requires { FnOnceTakesAt F.FnOnce name_map self.now.qname }
        ensures name { FnOnceReturnsAt F.FnOnce name_map self.now.qname result.qname }
        ensures unchanged { (result.qtype ≡ self.now.qtype) × (result.qclass ≡ self.now.qclass) }
    {
        Question {
            qname: name_map(&self.qname),
            qtype: self.qtype,
            qclass: self.qclass,
        }
    }
}

impl<'a, N: SplitBytes<'a>> ParseBytes<'a> for Question<N> {
    ghost Seen = { QuestionOf N.Seen };

    ghost seen = { question_seen N.seen };

    ghost reads = { question_at N.reads };

    ghost reads_at = { question_in N.reads_at };

    ghost leaves_rest = { question_leaves N.reads N.leaves_rest };

    ghost ends_within = { question_ends N.reads_at N.ends_within };

    fn parse_bytes(bytes: &'a [u8]) -> Result<Question<N>, ParseError> {
        whole(Question::split_bytes(bytes))
    }
}

impl<'a, N: SplitBytes<'a>> SplitBytes<'a> for Question<N> {
    #[tactic(auto, unfolding(crate::specs::Questions::question_at))]
    fn split_bytes(bytes: &'a [u8]) -> Result<(Question<N>, &'a [u8]), ParseError> {
        let (qname, rest) = N::split_bytes(bytes)?;
        let (qtype, rest) = QType::split_bytes(rest)?;
        let (qclass, rest) = QClass::split_bytes(rest)?;
        let question = Question {
            qname,
            qtype,
            qclass,
        };
        Ok((question, rest))
    }
}

impl<'a, N: SplitMessageBytes<'a>> ParseMessageBytes<'a> for Question<N> {
    fn parse_message_bytes(contents: &'a [u8], start: usize) -> Result<Question<N>, ParseError> {
        whole_message(Question::split_message_bytes(contents, start), contents)
    }
}

impl<'a, N: SplitMessageBytes<'a>> SplitMessageBytes<'a> for Question<N> {
    #[tactic(auto, unfolding(crate::specs::Questions::question_in))]
    fn split_message_bytes(
        contents: &'a [u8],
        start: usize,
    ) -> Result<(Question<N>, usize), ParseError> {
        let (qname, at) = N::split_message_bytes(contents, start)?;
        let (qtype, at) = QType::split_message_bytes(contents, at)?;
        let (qclass, end) = QClass::split_message_bytes(contents, at)?;
        let question = Question {
            qname,
            qtype,
            qclass,
        };
        Ok((question, end))
    }
}

impl<N: BuildBytes> BuildBytes for Question<N> {
    ghost octets = { λ v. N.octets v.qname ++ (to_be_bytes w16 v.qtype.code.value ++ to_be_bytes w16 v.qclass.code.value) };

    ghost fits = { λ v. N.fits v.qname };

    fn build_at(&self, bytes: &mut [u8], start: usize) -> Result<usize, TruncationError> {
        (&self.qname, (&self.qtype, &self.qclass)).build_at(bytes, start)
    }

    fn built_bytes_size(&self) -> usize {
        self.qname.built_bytes_size() + 4
    }
}

/// The name as its type writes it in a message, and after it the type and the class.
impl<N: BuildInMessage> BuildInMessage for Question<N> {
    ghost writes = { λ v. question_writes (N.writes v.qname) v.qtype.code.value v.qclass.code.value };

    ghost fits_in = { λ v. N.fits_in v.qname };

    ghost layout_matches = { λ _. tt };

    fn build_in_message(
        &self,
        contents: &mut [u8],
        start: usize,
        compressor: &mut NameCompressor,
    ) -> Result<usize, TruncationError> {
        let codes = (&self.qtype, &self.qclass);
        (&self.qname, codes).build_in_message(contents, start, compressor)
    }
}
