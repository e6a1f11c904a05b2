// The tags of fields. A tag says what event the field's value is, and so how long the value is.
ghost use Rattle.std.specs.Prelude.{◌≡◌, ◌+◌};
ghost use Rattle.messages.specs.Tag.{byte, value_length, may_stand, tag_of, tag_at};

use crate::fault::ReaderFault;

// The kinds of field, each with its tag.
#[derive(Clone, Copy, Debug, PartialEq, Eq)]
pub(crate) enum Tag {
    Figures = 0x01,
    Trade = 0x02,
    Action = 0x03,
    Close = 0x04,
    Reconcile = 0x05,
    Opening = 0x10,
}

// Every tag.
const TAGS: [Tag; 6] = [
    Tag::Figures,
    Tag::Trade,
    Tag::Action,
    Tag::Close,
    Tag::Reconcile,
    Tag::Opening,
];

impl From<Tag> for u8 {
    ghost from_gives = { λ tag result. result ≡ byte tag };

    fn from(tag: Tag) -> u8 {
        tag as u8
    }
}

impl TryFrom<u8> for Tag {
    type Error = ReaderFault;

    ghost try_from_gives = { λ n result. result ≡ tag_of n };

    fn try_from(byte: u8) -> Result<Tag, ReaderFault> {
        TAGS.iter()
            .find(|tag| u8::from(**tag) == byte)
            .copied()
            .ok_or(ReaderFault::TagUnknown)
    }
}

impl Tag {
    // The tag that a byte at a place is.
    pub(crate) fn at(place: usize, byte: u8) -> Result<Tag, ReaderFault>
        ensures { result ≡ tag_at place byte }
    {
        let tag = Tag::try_from(byte)?;
        if tag.may_stand(place) {
            Ok(tag)
        } else {
            Err(ReaderFault::TagUnknown)
        }
    }

    // Whether a field of the tag may stand at a place: an opening at the first, any other elsewhere.
    pub(crate) fn may_stand(self, place: usize) -> bool
        ensures { result ≡ may_stand self place }
    {
        (self == Tag::Opening) == (place == 0)
    }

    // How many bytes the value has.
    pub(crate) fn value_length(self) -> u16
        ensures { result ≡ value_length self }
    {
        match self {
            Tag::Figures => 13,
            Tag::Trade => 6,
            Tag::Action => 11,
            Tag::Close => 0,
            Tag::Reconcile => 7,
            Tag::Opening => 33,
        }
    }

    // How many bytes the field has, its tag and its length among them.
    pub(crate) fn field_length(self) -> usize
        ensures { result ≡ 3 + value_length self }
    {
        3 + usize::from(self.value_length())
    }
}
