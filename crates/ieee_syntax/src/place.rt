ghost use Rattle.std.specs.Prelude.{◌≡◌, ◌∷◌, [], ◌<◌, length, IfOk, Some, option_map};
ghost use Rattle.ieee_syntax.specs.declared.place.Place.TheVariants as places;
ghost use Rattle.ieee_syntax.specs.Kind.{IsSmall};
ghost use Rattle.ieee_syntax.specs.Automaton.{NumberFits, PlaceFits, Gives, named, given, first_of, whole, at_unit, behind_star, longer, in_head, behind_query, at_number, in_number, advance, begin, fault_at};

use crate::head::{HEAD_MOST, NAME_MOST};
use crate::kind::Kind;
use crate::number::Number;
use crate::{Args, Head, Nrf, SyntaxFault, Unit};
use std::alloc::{AllocFailed, Global};

/// Where the bytes so far stand in the grammar, with the unit that has begun.
#[derive(Drop)]
pub(crate) enum Place {
    /// Nothing but white space.
    Start,
    /// Behind a `;`.
    Separator,
    /// Behind a `*`.
    Star,
    /// In a head, which may have begun with a `*`.
    Head(Unit, bool),
    /// Behind a `?`.
    Query(Unit),
    /// White space behind a head or a `?`.
    Gap(Unit),
    /// Behind a `,`.
    Comma(Unit),
    /// In a number, or in white space behind it.
    Number(Unit, Number),
    /// Behind the NL that ends the message.
    End,
}

/// Why no message goes on here.
#[derive(Clone, Copy)]
pub(crate) enum Refusal {
    /// No message has this byte here, or ends here.
    Byte,
    Memory,
}

impl<T: Drop> From<AllocFailed<T>> for Refusal {
    ghost use Rattle.ieee_syntax.specs.declared.place.Refusal.TheVariants.{Memory};

    ghost from_gives = { λ _ e. e ≡ Memory };

    fn from(_error: AllocFailed<T>) -> Refusal {
        Refusal::Memory
    }
}

impl Refusal {
    /// What is said of the refusal of this byte.
    pub(crate) fn at(self, place: u32) -> SyntaxFault
        ensures { result ≡ fault_at self place }
    {
        match self {
            Refusal::Byte => SyntaxFault::At(place),
            Refusal::Memory => SyntaxFault::Memory,
        }
    }
}

impl Place {
    /// The unit that has begun, where it may end here.
    pub(crate) fn whole(self) -> Result<Unit, Refusal>
        requires { PlaceFits self }
        ensures { Gives result (whole self) }
    {
        match self {
            Place::Head(unit, _) => Ok(unit),
            Place::Query(unit) => Ok(unit),
            Place::Gap(unit) => Ok(unit),
            Place::Number(unit, number) => match number.value() {
                Some(value) => unit.given(value),
                None => Err(Refusal::Byte),
            },
            Place::Start | Place::Separator | Place::Star | Place::Comma(_) | Place::End => {
                Err(Refusal::Byte)
            }
        }
    }

    /// The place after a byte that ends no unit.
    pub(crate) fn advance(self, alloc: Global, kind: Kind) -> Result<Place, Refusal>
        requires small { IsSmall kind }
        requires fits { PlaceFits self }
        ensures value { Gives result (advance self kind) }
        ensures fits { IfOk result PlaceFits }
    {
        match self {
            Place::Start => at_unit(alloc, Place::Start, kind),
            Place::Separator => at_unit(alloc, Place::Separator, kind),
            Place::Star => behind_star(alloc, kind),
            Place::Head(unit, starred) => in_head(unit, starred, kind),
            Place::Query(unit) => behind_query(unit, kind),
            Place::Gap(unit) => behind_head(unit, kind),
            Place::Comma(unit) => behind_comma(unit, kind),
            Place::Number(unit, number) => in_number(unit, number, kind),
            Place::End => Err(Refusal::Byte),
        }
    }
}

impl Unit {
    /// A unit whose head has this byte.
    fn new(alloc: Global, byte: u8) -> Unit
        ensures { result ≡ first_of (byte ∷ []) }
    {
        let mut head = Head::new();
        head.push(byte);
        Unit {
            head,
            query: false,
            args: Args::new(alloc),
        }
    }

    /// The unit with one more byte in its head.
    fn named(mut self, byte: u8) -> Unit
        requires { length self.head < HEAD_MOST }
        ensures { result ≡ named self byte }
    {
        self.head.push(byte);
        self
    }

    /// The unit with one more number.
    fn given(mut self, number: Nrf) -> Result<Unit, Refusal>
        ensures { Gives result (Some (given self number)) }
    {
        self.args.push(number)?;
        Ok(self)
    }
}

/// White space before a unit, or its first byte.
fn at_unit(alloc: Global, place: Place, kind: Kind) -> Result<Place, Refusal>
    requires { PlaceFits place }
    ensures value { Gives result (at_unit place kind) }
    ensures fits { IfOk result PlaceFits }
{
    match kind {
        Kind::Space => Ok(place),
        Kind::Star => Ok(Place::Star),
        Kind::Letter(code) => Ok(Place::Head(Unit::new(alloc, code), false)),
        _ => Err(Refusal::Byte),
    }
}

/// Only a letter stands behind a `*`.
fn behind_star(alloc: Global, kind: Kind) -> Result<Place, Refusal>
    ensures value { Gives result (behind_star kind) }
    ensures fits { IfOk result PlaceFits }
{
    match kind {
        Kind::Letter(code) => Ok(Place::Head(Unit::new(alloc, b'*').named(code), true)),
        _ => Err(Refusal::Byte),
    }
}

/// In a head, or at the byte that ends it.
fn in_head(mut unit: Unit, starred: bool, kind: Kind) -> Result<Place, Refusal>
    requires { IsSmall kind }
    ensures value { Gives result (in_head unit starred kind) }
    ensures fits { IfOk result PlaceFits }
{
    match kind {
        Kind::Letter(code) => longer(unit, starred, code),
        Kind::Digit(digit) => longer(unit, starred, digit + b'0'),
        Kind::Underscore => longer(unit, starred, b'_'),
        Kind::Question => {
            unit.query = true;
            Ok(Place::Query(unit))
        }
        Kind::Space => Ok(Place::Gap(unit)),
        _ => Err(Refusal::Byte),
    }
}

/// One more byte of a head, where it has room.
fn longer(unit: Unit, starred: bool, byte: u8) -> Result<Place, Refusal>
    ensures value { Gives result (longer unit starred byte) }
    ensures fits { IfOk result PlaceFits }
{
    let most = if starred { HEAD_MOST } else { NAME_MOST };
    if unit.head.len() < most {
        Ok(Place::Head(unit.named(byte), starred))
    } else {
        Err(Refusal::Byte)
    }
}

/// Only white space stands between a `?` and a number.
fn behind_query(unit: Unit, kind: Kind) -> Result<Place, Refusal>
    ensures value { Gives result (behind_query unit kind) }
    ensures fits { IfOk result PlaceFits }
{
    match kind {
        Kind::Space => Ok(Place::Gap(unit)),
        _ => Err(Refusal::Byte),
    }
}

/// White space behind a head, or the first byte of a number.
fn behind_head(unit: Unit, kind: Kind) -> Result<Place, Refusal>
    requires { IsSmall kind }
    ensures value { Gives result (at_number (places.Gap unit) unit kind) }
    ensures fits { IfOk result PlaceFits }
{
    match kind {
        Kind::Space => Ok(Place::Gap(unit)),
        _ => number_begins(unit, kind),
    }
}

/// White space behind a `,`, or the first byte of a number.
fn behind_comma(unit: Unit, kind: Kind) -> Result<Place, Refusal>
    requires { IsSmall kind }
    ensures value { Gives result (at_number (places.Comma unit) unit kind) }
    ensures fits { IfOk result PlaceFits }
{
    match kind {
        Kind::Space => Ok(Place::Comma(unit)),
        _ => number_begins(unit, kind),
    }
}

/// The first byte of a number.
fn number_begins(unit: Unit, kind: Kind) -> Result<Place, Refusal>
    requires { IsSmall kind }
    ensures value { Gives result (option_map (places.Number unit) (begin kind)) }
    ensures fits { IfOk result PlaceFits }
{
    match Number::begin(kind) {
        Some(number) => Ok(Place::Number(unit, number)),
        None => Err(Refusal::Byte),
    }
}

/// In a number, or at the `,` behind it.
fn in_number(unit: Unit, number: Number, kind: Kind) -> Result<Place, Refusal>
    requires small { IsSmall kind }
    requires fits { NumberFits number }
    ensures value { Gives result (in_number unit number kind) }
    ensures fits { IfOk result PlaceFits }
{
    match kind {
        Kind::Comma => match number.value() {
            Some(value) => Ok(Place::Comma(unit.given(value)?)),
            None => Err(Refusal::Byte),
        },
        _ => match number.next(kind) {
            Some(number) => Ok(Place::Number(unit, number)),
            None => Err(Refusal::Byte),
        },
    }
}
