//! The points at which the run stops, as `specs/Points.antt` has them.
ghost use Rattle.std.specs.Prelude.{◌≡◌, ◌↔◌, ◌+◌, ◌^◌, ◌≤◌, [], IsTrue, Some, OnOk, OnErr, filter, length, not};
ghost use Rattle.std.specs.List.{list_any};
ghost use Rattle.rv_gdb.specs.Points as spec;

use crate::point::{Kind, Point};
use rv_hart::access::Access;
use rv_memory::store::NoMemory;
use std::alloc::Global;
use std::marker::Model;

/// The most points that are set at once.
pub const MOST_POINTS: usize = 256;

/// A byte of an access that a point watches, and the kind of the point.
#[derive(Clone, Copy)]
pub struct Sight {
    pub kind: Kind,
    pub address: u32,
}

/// The points that are set, in the order in which they were. To contracts it is that list.
#[derive(Drop)]
pub struct Points {
    points: Vec<Point>,
}

impl Model for Points {
    ghost use Rattle.std.specs.Prelude.{List, ◌≤◌, length};
    ghost use Rattle.rv_gdb.specs.declared.point.Point.{Point};

    ghost Value = { List Point };

    ghost view = { λ p. p.points.items };

    ghost invariant = { λ p. length p.points.items ≤ 256 };
}

impl Points {
    /// None are set.
    pub fn new(alloc: Global) -> Points
        ensures { result ≡ [] }
    {
        Points {
            points: Vec::new(alloc),
        }
    }

    /// Whether none is set.
    pub fn is_empty(&self) -> bool
        ensures { IsTrue result ↔ (self.now ≡ []) }
    {
        self.points.is_empty()
    }

    /// Sets a point, if it is not set already. Where there is no room for it, in memory or among `MOST_POINTS`, the
    /// points stay.
    #[tactic(auto, unfolding(crate::specs::Points::with_point))]
    pub fn set(&mut self, point: Point) -> Result<(), NoMemory>
        ensures ok { OnOk result (spec.with_point self.old point ≡ Some self.new) }
        ensures refused { OnErr result (self.new ≡ self.old) }
    {
        if self.has(point) {
            return Ok(());
        }
        if self.points.len() >= MOST_POINTS {
            return Err(NoMemory);
        }
        self.points.push(point)?;
        Ok(())
    }

    /// Takes a point away. Where it is not set the points stay.
    #[tactic(auto, unfolding(crate::specs::Points::without_point))]
    pub fn clear(&mut self, point: Point)
        ensures { self.new ≡ spec.without_point self.old point }
    {
        keep_others(&mut self.points, point);
    }

    /// Whether the point is set.
    fn has(&self, point: Point) -> bool
        ensures { result ≡ spec.has_point self.now point }
    {
        self.points.iter().any(|other| is_same(point, *other))
    }

    /// Whether a step breaks whose hart stands at the address.
    #[tactic(auto, unfolding(crate::specs::Points::breaks))]
    pub fn breaks(&self, pc: u32) -> bool
        ensures { result ≡ spec.breaks self.now pc }
    {
        self.points.iter().any(|point| breaks_at(pc, *point))
    }

    /// Whether a point of the kind has the address among its bytes.
    fn watch(&self, kind: Kind, address: u32) -> bool
        ensures { result ≡ list_any (spec.watches kind address) self.now }
    {
        self.points
            .iter()
            .any(|point| watches(kind, address, *point))
    }

    /// Whether the byte of an access is seen by a kind.
    fn is_seen_by(&self, access: &Access, address: u32, kind: Kind) -> bool
        ensures { result ≡ spec.is_seen_by self.now access.now address kind }
    {
        does(access, kind) && self.watch(kind, address)
    }

    /// What sees a byte of an access: the least of the kinds that do.
    fn seen_at(&self, access: &Access, address: u32) -> Option<Sight>
        ensures { result ≡ spec.seen_at self.now access.now address }
    {
        let kind = if self.is_seen_by(access, address, Kind::Write) {
            Kind::Write
        } else if self.is_seen_by(access, address, Kind::Read) {
            Kind::Read
        } else if self.is_seen_by(access, address, Kind::Access) {
            Kind::Access
        } else {
            return None;
        };
        Some(Sight { kind, address })
    }

    /// What sees an access: the least of its bytes that is seen, and by which kind.
    #[tactic(auto, unfolding(crate::specs::Points::seen))]
    pub fn seen(&self, access: &Access) -> Option<Sight>
        ensures { result ≡ spec.seen self.now access.now }
    {
        for i in 0..byte_count(access) {
            if let Some(sight) = self.seen_at(access, (u64::from(access.first) + i) as u32) {
                return Some(sight);
            }
        }
        None
    }
}

/// How many bytes an access has; none lies past the last address.
fn byte_count(access: &Access) -> u64
    ensures value { result ≡ spec.byte_count access.now }
    ensures within { access.now.first + result ≤ 2 ^ 32 }
{
    u64::from(access.size).min(0x1_0000_0000 - u64::from(access.first))
}

fn kind_number(kind: Kind) -> u8
    ensures { result ≡ spec.kind_number kind }
{
    match kind {
        Kind::Software => 0,
        Kind::Hardware => 1,
        Kind::Write => 2,
        Kind::Read => 3,
        Kind::Access => 4,
    }
}

fn keep_others(points: &mut Vec<Point>, point: Point)
    ensures items { points.new.items ≡ filter (λ other. not (spec.is_same point other)) points.old.items }
    ensures few { length points.new.items ≤ length points.old.items }
{
    points.retain(|other| !is_same(point, *other));
}

fn is_same(one: Point, other: Point) -> bool
    ensures { result ≡ spec.is_same one other }
{
    kind_number(one.kind) == kind_number(other.kind)
        && one.bytes.from == other.bytes.from
        && one.bytes.length == other.bytes.length
}

fn breaks_at(pc: u32, point: Point) -> bool
    ensures { result ≡ spec.breaks_at pc point }
{
    matches!(point.kind, Kind::Software | Kind::Hardware) && point.bytes.from == pc
}

/// Whether an access does what a kind watches for.
fn does(access: &Access, kind: Kind) -> bool
    ensures { result ≡ spec.does access.now kind }
{
    match kind {
        Kind::Software | Kind::Hardware => false,
        Kind::Write => access.write,
        Kind::Read => access.read,
        Kind::Access => true,
    }
}

/// Whether a point of the kind has the address among its bytes.
fn watches(kind: Kind, address: u32, point: Point) -> bool
    ensures { result ≡ spec.watches kind address point }
{
    let range = point.bytes;
    kind_number(point.kind) == kind_number(kind)
        && range.from <= address
        && u64::from(address) < u64::from(range.from) + u64::from(range.length)
}
