//! Markup that is well formed, as `specs/Markup.antt` has it.
ghost use Rattle.std.specs.Prelude.{◌≡◌, ◌∷◌, ◌++◌, [], pred, suc, IfOk, OnOk};
ghost use Rattle.rv_markup.specs.Markup as spec;

use crate::escaped::push_escaped;
use crate::tag::{Attribute, Place, Tag};
use rv_memory::store::NoMemory;
use rv_text::decimal::Decimal;
use std::alloc::Global;
use std::marker::Model;

/// What is told of a markup beside its text: the places that it has, those that it links to, and the numbers that it shows.
#[derive(Clone, Copy)]
pub enum Fact {
    Target(Place),
    Link(Place),
    Number(u64),
}

/// A text of elements, one within another, which grows at its end: each call gives it back with more. To contracts it is how many
/// elements are open, and what is told of it, the last first.
#[derive(Drop)]
pub struct Markup {
    text: Vec<u8>,
    begun: Vec<Tag>,
    facts: Vec<Fact>,
}

impl Model for Markup {
    ghost use Rattle.std.specs.Prelude.{length, reverse};
    ghost use Rattle.rv_markup.specs.Markup.{IsMarkup, Written};

    ghost Value = { Written };

    ghost view = { λ m. record { depth = length m.begun.items; facts = reverse m.facts.items } };

    ghost invariant = { λ m. IsMarkup m.text.items (reverse m.begun.items) (reverse m.facts.items) };
}

impl Markup {
    /// An empty one.
    pub fn new(alloc: Global) -> Markup
        ensures { result ≡ record { depth = 0; facts = [] } }
    {
        Markup {
            text: Vec::new(alloc),
            begun: Vec::new(alloc),
            facts: Vec::new(alloc),
        }
    }

    /// Says that what follows is an HTML page.
    pub fn doctype(mut self) -> Result<Markup, NoMemory>
        ensures { IfOk result (λ more. more ≡ self) }
    {
        self.text.extend_from_slice(b"<!DOCTYPE html>\n")?;
        Ok(self)
    }

    /// Begins an element.
    pub fn begin(mut self, tag: Tag, attributes: &[Attribute]) -> Result<Markup, NoMemory>
        ensures { IfOk result (λ more. more ≡ record self { depth = suc self.depth }) }
    {
        push_tag(&mut self.text, tag, attributes)?;
        self.text.push(b'>')?;
        self.begun.push(tag)?;
        Ok(self)
    }

    /// Begins an element that links may name.
    pub fn begin_at(
        mut self,
        tag: Tag,
        attributes: &[Attribute],
        place: Place,
    ) -> Result<Markup, NoMemory>
        ensures { IfOk result (λ more. more ≡ record { depth = suc self.depth; facts = Fact.Target place ∷ self.facts }) }
    {
        push_tag(&mut self.text, tag, attributes)?;
        self.text.extend_from_slice(b" id='")?;
        push_place(&mut self.text, place)?;
        self.text.extend_from_slice(b"'>")?;
        self.begun.push(tag)?;
        self.facts.push(Fact::Target(place))?;
        Ok(self)
    }

    /// Begins an element that links to a place of the same page.
    pub fn begin_link(mut self, tag: Tag, place: Place) -> Result<Markup, NoMemory>
        ensures { IfOk result (λ more. more ≡ record { depth = suc self.depth; facts = Fact.Link place ∷ self.facts }) }
    {
        push_tag(&mut self.text, tag, &[])?;
        self.text.extend_from_slice(b" href='#")?;
        push_place(&mut self.text, place)?;
        self.text.extend_from_slice(b"'>")?;
        self.begun.push(tag)?;
        self.facts.push(Fact::Link(place))?;
        Ok(self)
    }

    /// An element with nothing in it.
    pub fn empty(mut self, tag: Tag, attributes: &[Attribute]) -> Result<Markup, NoMemory>
        ensures { IfOk result (λ more. more ≡ self) }
    {
        push_tag(&mut self.text, tag, attributes)?;
        self.text.extend_from_slice(b"/>")?;
        Ok(self)
    }

    /// A text, whatever bytes it has.
    pub fn text(mut self, text: &[u8]) -> Result<Markup, NoMemory>
        ensures { IfOk result (λ more. more ≡ self) }
    {
        push_escaped(&mut self.text, text)?;
        Ok(self)
    }

    /// A number.
    pub fn number(mut self, number: u64) -> Result<Markup, NoMemory>
        ensures { IfOk result (λ more. more ≡ record self { facts = Fact.Number number ∷ self.facts }) }
    {
        self.text
            .extend_from_slice(Decimal::new(number).as_bytes())?;
        self.facts.push(Fact::Number(number))?;
        Ok(self)
    }

    /// Ends the innermost element; where none is open nothing is added.
    pub fn end(mut self) -> Result<Markup, NoMemory>
        ensures { IfOk result (λ more. more ≡ record self { depth = pred self.depth }) }
    {
        if let Some(tag) = self.begun.pop() {
            self.text.extend_from_slice(b"</")?;
            self.text.extend_from_slice(tag.name())?;
            self.text.push(b'>')?;
        }
        Ok(self)
    }

    /// The text, where all elements have ended.
    pub fn finish(self) -> Vec<u8>
        requires { self.depth ≡ 0 }
        ensures { spec.IsDocument result.items self.facts }
    {
        self.text
    }
}

/// The begin of an element up to its end or its last attribute.
fn push_tag(text: &mut Vec<u8>, tag: Tag, attributes: &[Attribute]) -> Result<(), NoMemory>
    ensures { OnOk result (text.new.items ≡ text.old.items ++ spec.tag_text tag attributes.now) }
{
    text.push(b'<')?;
    text.extend_from_slice(tag.name())?;
    for attribute in attributes {
        push_attribute(text, attribute)?;
    }
    Ok(())
}

fn push_attribute(text: &mut Vec<u8>, attribute: &Attribute) -> Result<(), NoMemory>
    ensures { OnOk result (text.new.items ≡ text.old.items ++ spec.attribute_text attribute.now) }
{
    text.push(b' ')?;
    text.extend_from_slice(attribute.name.name())?;
    text.extend_from_slice(b"='")?;
    push_escaped(text, attribute.value)?;
    text.push(b'\'')?;
    Ok(())
}

fn push_place(text: &mut Vec<u8>, place: Place) -> Result<(), NoMemory>
    ensures { OnOk result (text.new.items ≡ text.old.items ++ spec.place_text place) }
{
    match place {
        Place::Warnings => text.extend_from_slice(b"warnings")?,
        Place::Races => text.extend_from_slice(b"races")?,
        Place::Race(number) => {
            text.extend_from_slice(b"race-")?;
            text.extend_from_slice(Decimal::new(number).as_bytes())?;
        }
        Place::Aside => text.extend_from_slice(b"aside")?,
        Place::Ended => text.extend_from_slice(b"ended")?,
        Place::Seen => text.extend_from_slice(b"seen")?,
    }
    Ok(())
}
