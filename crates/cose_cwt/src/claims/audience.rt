//! The audience of a token (RFC 8392 section 3.1.3).

ghost use Rattle.std.specs.Prelude.{◌≡◌, List, []};
ghost use Rattle.cose_head.specs.ItemRef.{placed};
ghost use Rattle.cose_cwt.specs.Claims.{texts_of};
ghost use Rattle.cose_cwt.specs.Claims.Audience.{texts_left};

use cose_map::{ItemRef, Items};

/// The text strings that the iterator hasn't given yet.
#[derive(Clone, Copy, Debug)]
enum Texts<'a> {
    /// No text string.
    Nothing,
    /// The one text string that the audience is.
    One(&'a str),
    /// The elements of an array.
    Several(Items<'a>),
}

/// The text strings of an audience, in their order. There are none where the token names no audience.
#[derive(Clone, Copy, Debug)]
pub struct Auds<'a> {
    texts: Texts<'a>,
}

impl<'a> Auds<'a> {
    /// The audience without a text string.
    pub(crate) fn none() -> Auds<'a>
        ensures { texts_left result ≡ [] }
    {
        Auds {
            texts: Texts::Nothing,
        }
    }

    /// The text strings of the audience that an item is.
    pub(crate) fn of(item: &ItemRef<'a>) -> Auds<'a>
        ensures { texts_left result ≡ texts_of (placed item.now) }
    {
        if item.is_array() {
            return Auds {
                texts: Texts::Several(Items::of(item)),
            };
        }
        match item.as_text() {
            Some(text) => Auds {
                texts: Texts::One(text),
            },
            None => Auds::none(),
        }
    }
}

impl<'a> Iterator for Auds<'a> {
    ghost use Rattle.std.specs.Iterator.{YieldsFirstBy, item_count};
    ghost use Rattle.cose_cwt.specs.Claims.Audience.{text_value, texts_left};

    type Item = &'a str;

    ghost next_gives = { YieldsFirstBy text_value texts_left };

    ghost remaining = { item_count texts_left };

    #[tactic(auto, unfolding(crate::specs::Claims::texts_from))]
    fn next(&mut self) -> Option<&'a str> {
        match self.texts {
            Texts::Nothing => None,
            Texts::One(text) => {
                self.texts = Texts::Nothing;
                Some(text)
            }
            Texts::Several(mut items) => {
                let text = items.next()?.as_text()?;
                self.texts = Texts::Several(items);
                Some(text)
            }
        }
    }
}
