//! The labels of a source.
ghost use Rattle.std.specs.Prelude.{◌≡◌, ◌++◌, ◌∷◌, [], IfOk, OnOk};
ghost use Rattle.std.specs.List.{cons_option};
ghost use Rattle.rv_asm.specs.Layout as spec;
ghost use Rattle.rv_asm.specs.internal.Within.{IsWithin};

use crate::passes::cursor::PlacedLines;
use crate::passes::layout::address_of;
use crate::passes::place::{Label, PlacedLine, Spot};
use rv_memory::store::NoMemory;
use std::alloc::Global;
use std::collections::BTreeMap;
use std::marker::Model;

/// The labels of a source in the order of their lines, with the first of each name at hand.
#[derive(Drop)]
pub struct Labels<'s> {
    order: Vec<Label<'s>>,
    first: BTreeMap<&'s [u8], Spot>,
}

impl<'s> Model for Labels<'s> {
    ghost use Rattle.std.specs.Prelude.{List};
    ghost use Rattle.rv_asm.specs.declared.passes.place.Label.{Label};
    ghost use Rattle.rv_asm.specs.internal.Spots.{FindsFirst};

    ghost Value = { List Label };

    ghost view = { λ l. l.order.items };

    ghost invariant = { λ l. FindsFirst l.first l.order.items };
}

impl<'s> Labels<'s> {
    /// No labels.
    pub fn new(alloc: Global) -> Labels<'s>
        ensures { result ≡ [] }
    {
        Labels {
            order: Vec::new(alloc),
            first: BTreeMap::new(alloc),
        }
    }

    /// Adds the label of a later line.
    pub fn add(&mut self, label: Label<'s>) -> Result<(), NoMemory>
        ensures added { OnOk result (self.new ≡ self.old ++ label.entry ∷ []) }
    {
        self.order.reserve(1)?;
        let name = label.name.as_bytes();
        if !self.first.contains_key(name) {
            self.first.insert(name, label.spot)?;
        }
        self.order.push_reserved(label);
        Ok(())
    }

    /// Where the first label of that name stands.
    pub fn spot_of(&self, name: &[u8]) -> Option<Spot>
        ensures { result ≡ spec.spot_of self.now name.now }
    {
        self.first.get(name).copied()
    }

    /// The labels, in the order of their lines.
    pub fn into_order(self) -> Vec<Label<'s>>
        ensures { result.items ≡ self.entry }
    {
        self.order
    }
}

/// The label of a line, if it has one.
fn label_at<'s>(p: PlacedLine<'s>) -> Option<Label<'s>>
    requires { IsWithin p.place }
    ensures { result ≡ spec.label_at p.entry }
{
    let place = p.place;
    let name = p.line.label?;
    let spot = Spot {
        lines_before: place.lines_before,
        section: place.section,
        address: address_of(place),
    };
    Some(Label { name, spot })
}

/// Adds the label, if there is one.
fn add_some<'s>(labels: &mut Labels<'s>, label: Option<Label<'s>>) -> Result<(), NoMemory>
    ensures { OnOk result (labels.new ≡ labels.old ++ cons_option label.entry []) }
{
    match label {
        Some(label) => labels.add(label),
        None => Ok(()),
    }
}

/// The labels of a source.
pub fn labels_of(alloc: Global, source: &[u8]) -> Result<Labels, NoMemory>
    ensures { IfOk result (λ labels. labels ≡ spec.labels_of (spec.lines_placed source.now)) }
{
    let mut labels = Labels::new(alloc);
    let mut lines = PlacedLines::of(source);
    while let Some(p) = lines.next_line() {
        add_some(&mut labels, label_at(p))?;
    }
    Ok(labels)
}
