//! The words of markup: the names of its elements and attributes, and the places in a page.
//!
//! No other module makes one, so that no element runs a script and no attribute fetches a file.
ghost use Rattle.std.specs.Prelude.{◌≡◌};

/// The name of an element.
#[derive(Clone, Copy)]
pub struct Tag {
    name: &'static [u8],
}

pub const BODY: Tag = Tag { name: b"body" };

pub const CIRCLE: Tag = Tag { name: b"circle" };

pub const CODE: Tag = Tag { name: b"code" };

pub const DETAILS: Tag = Tag { name: b"details" };

pub const DIV: Tag = Tag { name: b"div" };

pub const FIGURE: Tag = Tag { name: b"figure" };

pub const H1: Tag = Tag { name: b"h1" };

pub const H2: Tag = Tag { name: b"h2" };

pub const H3: Tag = Tag { name: b"h3" };

pub const HEAD: Tag = Tag { name: b"head" };

pub const HTML: Tag = Tag { name: b"html" };

pub const LINE: Tag = Tag { name: b"line" };

pub const LINK: Tag = Tag { name: b"a" };

pub const META: Tag = Tag { name: b"meta" };

pub const NAV: Tag = Tag { name: b"nav" };

pub const P: Tag = Tag { name: b"p" };

pub const PRE: Tag = Tag { name: b"pre" };

pub const RECT: Tag = Tag { name: b"rect" };

pub const SECTION: Tag = Tag { name: b"section" };

pub const STYLE: Tag = Tag { name: b"style" };

pub const SUMMARY: Tag = Tag { name: b"summary" };

pub const SVG: Tag = Tag { name: b"svg" };

pub const TABLE: Tag = Tag { name: b"table" };

pub const TBODY: Tag = Tag { name: b"tbody" };

pub const TD: Tag = Tag { name: b"td" };

pub const TEXT: Tag = Tag { name: b"text" };

pub const TH: Tag = Tag { name: b"th" };

pub const THEAD: Tag = Tag { name: b"thead" };

pub const TITLE: Tag = Tag { name: b"title" };

pub const TR: Tag = Tag { name: b"tr" };

impl Tag {
    pub(crate) fn name(&self) -> &'static [u8]
        ensures { result.now ≡ self.now.name.now }
    {
        self.name
    }
}

/// The name of an attribute.
#[derive(Clone, Copy)]
pub struct Name {
    name: &'static [u8],
}

pub const CHARSET: Name = Name { name: b"charset" };

pub const CLASS: Name = Name { name: b"class" };

pub const CONTENT: Name = Name { name: b"content" };

pub const CX: Name = Name { name: b"cx" };

pub const CY: Name = Name { name: b"cy" };

pub const FILL: Name = Name { name: b"fill" };

pub const FONT_FAMILY: Name = Name {
    name: b"font-family",
};

pub const FONT_SIZE: Name = Name { name: b"font-size" };

pub const FONT_WEIGHT: Name = Name {
    name: b"font-weight",
};

pub const HEIGHT: Name = Name { name: b"height" };

pub const LANG: Name = Name { name: b"lang" };

pub const NAME: Name = Name { name: b"name" };

pub const R: Name = Name { name: b"r" };

pub const RX: Name = Name { name: b"rx" };

pub const SPACE: Name = Name { name: b"xml:space" };

pub const STROKE: Name = Name { name: b"stroke" };

pub const STROKE_WIDTH: Name = Name {
    name: b"stroke-width",
};

pub const TEXT_ANCHOR: Name = Name {
    name: b"text-anchor",
};

pub const VIEW_BOX: Name = Name { name: b"viewBox" };

pub const WIDTH: Name = Name { name: b"width" };

pub const X: Name = Name { name: b"x" };

pub const X1: Name = Name { name: b"x1" };

pub const X2: Name = Name { name: b"x2" };

pub const XMLNS: Name = Name { name: b"xmlns" };

pub const Y: Name = Name { name: b"y" };

pub const Y1: Name = Name { name: b"y1" };

pub const Y2: Name = Name { name: b"y2" };

impl Name {
    pub(crate) fn name(&self) -> &'static [u8]
        ensures { result.now ≡ self.now.name.now }
    {
        self.name
    }
}

/// A name with its value, whatever bytes that has.
#[derive(Clone, Copy)]
pub struct Attribute<'a> {
    pub name: Name,
    pub value: &'a [u8],
}

/// A place in a page that links name: one of its parts, or the race of a number.
#[derive(Clone, Copy)]
pub enum Place {
    Warnings,
    Races,
    Race(u64),
    Aside,
    Ended,
    Seen,
}
