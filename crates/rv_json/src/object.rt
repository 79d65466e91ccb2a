//! A JSON text that grows at its end, member by member.
ghost use Rattle.std.specs.Prelude.{◌≡◌, ◌∷◌, ◌++◌, [], pred, suc, IfOk, OnOk};
ghost use Rattle.rv_json.specs.Facts as facts;
ghost use Rattle.rv_json.specs.Object as spec;
ghost use Rattle.json.specs.Token as token;
ghost use Rattle.rv_text.specs.Hexadecimal.{word_digits};

use crate::fact::{Begun, Fact, Told};
use json::Writer;
use rv_memory::store::NoMemory;
use rv_text::hexadecimal::word_digits;
use std::alloc::Global;
use std::marker::Model;
use std::str;

/// A text that grows at its end: each call gives it back with more. To contracts it is how many objects and arrays are open, and what
/// is told of it, the last first. The names of members are the caller's: in an object each value has one, in an array none.
#[derive(Drop)]
pub struct Json {
    writer: Writer,
    begun: Vec<Begun>,
    facts: Vec<Fact>,
}

impl Model for Json {
    ghost use Rattle.std.specs.Prelude.{◌≡◌, [], length, map, reverse};
    ghost use Rattle.rv_json.specs.Object.{IsPart, Part, member_of};

    ghost Value = { Part };

    ghost view = { λ j. record { depth = length j.begun.items; facts = reverse (map member_of j.facts.items) } };

    ghost invariant = { λ j. (j.writer.before ≡ []) × IsPart j.writer.tokens (reverse j.begun.items) (reverse (map member_of j.facts.items)) };
}

/// Writes a value that is told.
fn put(writer: &mut Writer, value: Told) -> Result<(), NoMemory>
    ensures tokens { OnOk result (writer.new.tokens ≡ writer.old.tokens ++ spec.value_of value ∷ []) }
    ensures before { writer.new.before ≡ writer.old.before }
{
    match value {
        Told::Begins(Begun::Object) => writer.begin_object()?,
        Told::Begins(Begun::Array) => writer.begin_array()?,
        Told::Number(number) => writer.u64(number)?,
        Told::Digits(word) => put_digits(writer, word)?,
        Told::Word(word) => writer.string(word)?,
        Told::Nothing => writer.null()?,
    }
    Ok(())
}

/// Writes the end of an object or an array.
fn put_end(writer: &mut Writer, begun: Begun) -> Result<(), NoMemory>
    ensures tokens { OnOk result (writer.new.tokens ≡ writer.old.tokens ++ spec.end_of begun ∷ []) }
    ensures before { writer.new.before ≡ writer.old.before }
{
    match begun {
        Begun::Object => writer.end_object()?,
        Begun::Array => writer.end_array()?,
    }
    Ok(())
}

/// Writes a word of 32 bits as a string of eight digits.
fn put_digits(writer: &mut Writer, word: u32) -> Result<(), NoMemory>
    ensures tokens { OnOk result (writer.new.tokens ≡ writer.old.tokens ++ token.string (word_digits word) ∷ []) }
    ensures before { writer.new.before ≡ writer.old.before }
{
    let digits = word_digits(word);
    match str::from_utf8(&digits) {
        Ok(text) => writer.string(text)?,
        // Digits are ASCII.
        Err(_) => return Err(NoMemory),
    }
    Ok(())
}

impl Json {
    /// An empty text.
    pub fn new(alloc: Global) -> Json
        ensures { result ≡ record { depth = 0; facts = [] } }
    {
        Json {
            writer: Writer::new(Vec::new(alloc)),
            begun: Vec::new(alloc),
            facts: Vec::new(alloc),
        }
    }

    /// Begins an object or an array.
    fn begin(mut self, begun: Begun) -> Result<Json, NoMemory>
        ensures { IfOk result (λ more. more ≡ record self { depth = suc self.depth }) }
    {
        put(&mut self.writer, Told::Begins(begun))?;
        self.begun.push(begun)?;
        Ok(self)
    }

    /// The same of a name, which is told.
    fn begin_told(mut self, name: &'static str, begun: Begun) -> Result<Json, NoMemory>
        ensures { IfOk result (λ more. more ≡ record {
          depth = suc self.depth;
          facts = record { name = name.now; value = spec.begin_of begun } ∷ self.facts;
        }) }
    {
        let value = Told::Begins(begun);
        self.writer.key(name)?;
        put(&mut self.writer, value)?;
        self.begun.push(begun)?;
        self.facts.push(Fact { name, value })?;
        Ok(self)
    }

    /// A member that is told.
    fn tell(mut self, name: &'static str, value: Told) -> Result<Json, NoMemory>
        ensures { IfOk result (λ more. more ≡ record self {
          facts = record { name = name.now; value = spec.value_of value } ∷ self.facts;
        }) }
    {
        self.writer.key(name)?;
        put(&mut self.writer, value)?;
        self.facts.push(Fact { name, value })?;
        Ok(self)
    }

    /// The name of a member.
    fn key(mut self, name: &str) -> Result<Json, NoMemory>
        ensures { IfOk result (λ more. more ≡ self) }
    {
        self.writer.key(name)?;
        Ok(self)
    }

    /// A text.
    pub fn text(mut self, text: &str) -> Result<Json, NoMemory>
        ensures { IfOk result (λ more. more ≡ self) }
    {
        self.writer.string(text)?;
        Ok(self)
    }

    /// A number.
    pub fn number(mut self, number: u64) -> Result<Json, NoMemory>
        ensures { IfOk result (λ more. more ≡ self) }
    {
        self.writer.u64(number)?;
        Ok(self)
    }

    fn digits(mut self, word: u32) -> Result<Json, NoMemory>
        ensures { IfOk result (λ more. more ≡ self) }
    {
        put_digits(&mut self.writer, word)?;
        Ok(self)
    }

    fn flag(mut self, flag: bool) -> Result<Json, NoMemory>
        ensures { IfOk result (λ more. more ≡ self) }
    {
        self.writer.boolean(flag)?;
        Ok(self)
    }

    fn nothing(mut self) -> Result<Json, NoMemory>
        ensures { IfOk result (λ more. more ≡ self) }
    {
        self.writer.null()?;
        Ok(self)
    }

    /// Ends the innermost object or array; where none is open nothing is added.
    pub fn end(mut self) -> Result<Json, NoMemory>
        ensures { IfOk result (λ more. more ≡ record self { depth = pred self.depth }) }
    {
        if let Some(begun) = self.begun.pop() {
            put_end(&mut self.writer, begun)?;
        }
        Ok(self)
    }

    /// The text, where all objects and arrays have ended, and a line feed.
    pub fn finish(self) -> Result<Vec<u8>, NoMemory>
        requires { self.depth ≡ 0 }
        ensures { IfOk result (λ text. spec.IsObject text.items self.facts) }
    {
        let mut text = self.writer.into_inner();
        text.push(b'\n')?;
        Ok(text)
    }
}

impl Json {
    /// Begins an object that has no name: the whole, or one of an array.
    pub fn object(self) -> Result<Json, NoMemory>
        ensures { IfOk result (λ more. more ≡ record self { depth = suc self.depth }) }
    {
        self.begin(Begun::Object)
    }

    /// Begins the object of that name.
    pub fn object_at(self, name: &str) -> Result<Json, NoMemory>
        ensures { IfOk result (λ more. more ≡ record self { depth = suc self.depth }) }
    {
        self.key(name)?.begin(Begun::Object)
    }

    /// Begins the array of that name.
    pub fn array_at(self, name: &str) -> Result<Json, NoMemory>
        ensures { IfOk result (λ more. more ≡ record self { depth = suc self.depth }) }
    {
        self.key(name)?.begin(Begun::Array)
    }

    /// A text by its name.
    pub fn text_at(self, name: &str, text: &str) -> Result<Json, NoMemory>
        ensures { IfOk result (λ more. more ≡ self) }
    {
        self.key(name)?.text(text)
    }

    /// A text by its name, where there is one.
    pub fn text_if(self, name: &str, text: Option<&str>) -> Result<Json, NoMemory>
        ensures { IfOk result (λ more. more ≡ self) }
    {
        match text {
            Some(text) => self.text_at(name, text),
            None => self.nothing_at(name),
        }
    }

    /// A number by its name.
    pub fn number_at(self, name: &str, number: u64) -> Result<Json, NoMemory>
        ensures { IfOk result (λ more. more ≡ self) }
    {
        self.key(name)?.number(number)
    }

    /// A number by its name, where there is one.
    pub fn number_if(self, name: &str, number: Option<u64>) -> Result<Json, NoMemory>
        ensures { IfOk result (λ more. more ≡ self) }
    {
        match number {
            Some(number) => self.number_at(name, number),
            None => self.nothing_at(name),
        }
    }

    /// A word of 32 bits by its name, in eight digits.
    pub fn digits_at(self, name: &str, word: u32) -> Result<Json, NoMemory>
        ensures { IfOk result (λ more. more ≡ self) }
    {
        self.key(name)?.digits(word)
    }

    /// The same, where there is one.
    pub fn digits_if(self, name: &str, word: Option<u32>) -> Result<Json, NoMemory>
        ensures { IfOk result (λ more. more ≡ self) }
    {
        match word {
            Some(word) => self.digits_at(name, word),
            None => self.nothing_at(name),
        }
    }

    /// Whether something holds, by its name.
    pub fn flag_at(self, name: &str, flag: bool) -> Result<Json, NoMemory>
        ensures { IfOk result (λ more. more ≡ self) }
    {
        self.key(name)?.flag(flag)
    }

    /// The same, where that is asked.
    pub fn flag_if(self, name: &str, flag: Option<bool>) -> Result<Json, NoMemory>
        ensures { IfOk result (λ more. more ≡ self) }
    {
        match flag {
            Some(flag) => self.flag_at(name, flag),
            None => self.nothing_at(name),
        }
    }

    /// A text of ASCII by its name.
    pub fn ascii_at(self, name: &str, text: &[u8]) -> Result<Json, NoMemory>
        ensures { IfOk result (λ more. more ≡ self) }
    {
        self.text_at(name, str::from_utf8(text).unwrap_or(""))
    }

    /// That there is nothing of that name.
    pub fn nothing_at(self, name: &str) -> Result<Json, NoMemory>
        ensures { IfOk result (λ more. more ≡ self) }
    {
        self.key(name)?.nothing()
    }
}

impl Json {
    /// Begins the object of that name, and tells that.
    pub fn object_told(self, name: &'static str) -> Result<Json, NoMemory>
        ensures { IfOk result (λ more. more ≡ record {
          depth = suc self.depth;
          facts = facts.begins name.now ∷ self.facts;
        }) }
    {
        self.begin_told(name, Begun::Object)
    }

    /// Begins the array of that name, and tells that.
    pub fn array_told(self, name: &'static str) -> Result<Json, NoMemory>
        ensures { IfOk result (λ more. more ≡ record {
          depth = suc self.depth;
          facts = facts.lists name.now ∷ self.facts;
        }) }
    {
        self.begin_told(name, Begun::Array)
    }

    /// A number that is told.
    pub fn number_told(self, name: &'static str, number: u64) -> Result<Json, NoMemory>
        ensures { IfOk result (λ more. more ≡ record self {
          facts = facts.counted name.now number ∷ self.facts;
        }) }
    {
        self.tell(name, Told::Number(number))
    }

    /// A word of 32 bits that is told.
    pub fn digits_told(self, name: &'static str, word: u32) -> Result<Json, NoMemory>
        ensures { IfOk result (λ more. more ≡ record self {
          facts = facts.digits name.now word ∷ self.facts;
        }) }
    {
        self.tell(name, Told::Digits(word))
    }

    /// A word of a fixed set that is told.
    pub fn word_told(self, name: &'static str, word: &'static str) -> Result<Json, NoMemory>
        ensures { IfOk result (λ more. more ≡ record self {
          facts = facts.worded name.now word.now ∷ self.facts;
        }) }
    {
        self.tell(name, Told::Word(word))
    }

    /// That there is nothing of that name, which is told.
    pub fn nothing_told(self, name: &'static str) -> Result<Json, NoMemory>
        ensures { IfOk result (λ more. more ≡ record self {
          facts = facts.nothing name.now ∷ self.facts;
        }) }
    {
        self.tell(name, Told::Nothing)
    }
}
