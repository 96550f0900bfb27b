// The tags of a table's fields.
ghost use Rattle.std.specs.Prelude.{◌≡◌};

use table::Refusal;

/// The tag of a field of a table.
#[derive(Clone, Copy, Debug, PartialEq, Eq)]
pub(crate) enum Tag {
    Version = 1,
    Size = 2,
    Resource = 3,
    Job = 4,
    End = 5,
}

/// A byte that is no tag is one that can't stand here.
impl TryFrom<u8> for Tag {
    ghost use Rattle.tagged_table.specs.Tags.{tag_answer};

    type Error = Refusal;

    ghost try_from_gives = { λ byte result. result ≡ tag_answer byte };

    fn try_from(byte: u8) -> Result<Tag, Refusal>
        ensures { result ≡ tag_answer byte }
    {
        match byte {
            1 => Ok(Tag::Version),
            2 => Ok(Tag::Size),
            3 => Ok(Tag::Resource),
            4 => Ok(Tag::Job),
            5 => Ok(Tag::End),
            _ => Err(Refusal::WrongTagOrCount),
        }
    }
}
