// The table of commands: the command byte decides what a packet carries, its words' limits, and its effect.
#![tactic(auto)]

ghost use Rattle.std.specs.Prelude.{◌≤◌, ◌≡◌, true};
ghost use Rattle.meaning.specs.Bench.{full, hub};
ghost use Rattle.meaning.specs.declared.table.Kind.TheVariants.{Plaque, Gateway};
ghost use Rattle.meaning.specs.Table.{◌to◌, row_of, suits, carries, carried};

use meaning::packet::Command;
use meaning::table::{Kind, Limits, Load, OfGateway, OnPlaque, Row};
use units::Bytes;

fn limits(low: u16, high: u16) -> Limits
    ensures { result ≡ low to high }
{
    Limits { low, high }
}

// The limits of a count of bytes.
fn up_to(low: u16, most: Bytes) -> Limits
    ensures { result ≡ low to most.0 }
{
    limits(low, most.0)
}

// The effect.
#[tactic(auto, unfolding(meaning::specs::Table::table, meaning::specs::Table::lookup, meaning::specs::Table::row_of, meaning::specs::Table::suits))]
fn kind_of(command: u8) -> Kind
    ensures { result ≡ (row_of full command).kind }
{
    match command {
        0x04..=0x08 => Kind::Plaque(on_plaque(command)),
        0x0D => Kind::Continuous,
        0x54 => Kind::ResetReader,
        0x11 | 0x21 | 0x60..=0x61 | 0x79 => Kind::Gateway(of_gateway(command)),
        _ => Kind::Unknown,
    }
}

// 04 to 08, which want a plaque in the field.
#[tactic(auto, unfolding(meaning::specs::Table::table, meaning::specs::Table::lookup, meaning::specs::Table::row_of))]
fn on_plaque(command: u8) -> OnPlaque
    requires { (0x04 ≤ command) × (command ≤ 0x08) }
    ensures { Plaque result ≡ (row_of full command).kind }
{
    match command {
        0x04 => OnPlaque::Fill,
        0x05 => OnPlaque::Read,
        0x06 => OnPlaque::Write,
        0x07 => OnPlaque::ReadId,
        _ => OnPlaque::Search,
    }
}

// The commands for node 32.
#[tactic(auto, unfolding(meaning::specs::Table::table, meaning::specs::Table::lookup, meaning::specs::Table::row_of, meaning::specs::Table::suits))]
fn of_gateway(command: u8) -> OfGateway
    requires { suits (row_of full command).kind hub ≡ true }
    ensures { Gateway result ≡ (row_of full command).kind }
{
    match command {
        0x11 => OfGateway::GetName,
        0x21 => OfGateway::SetName,
        0x60 => OfGateway::Initialise,
        0x61 => OfGateway::ResetGateway,
        _ => OfGateway::Clear,
    }
}

// What Overall Length counts besides the first six words: nothing, a fill's one byte, or the bytes that word 06 says.
#[tactic(auto, unfolding(meaning::specs::Table::table, meaning::specs::Table::lookup, meaning::specs::Table::row_of))]
fn load_of(command: u8) -> Load
    ensures { result ≡ (row_of full command).load }
{
    match command {
        0x04 => Load::One,
        0x06 | 0x21 => Load::Size,
        0x00..=0x03 | 0x05 | 0x07..=0x20 | 0x22..=0xFF => Load::Nothing,
    }
}

// Word 04: a timeout, a delay, or unused.
#[tactic(auto, unfolding(meaning::specs::Table::table, meaning::specs::Table::lookup, meaning::specs::Table::row_of))]
fn word4_of(command: u8) -> Limits
    ensures { result ≡ (row_of full command).word4 }
{
    match command {
        0x04..=0x08 => limits(1, 65534),
        0x0D => limits(0, 60),
        _ => limits(0, 0),
    }
}

#[tactic(auto, unfolding(meaning::specs::Table::table, meaning::specs::Table::lookup, meaning::specs::Table::row_of))]
fn start_of(command: u8) -> Limits
    ensures { result ≡ (row_of full command).start }
{
    match command {
        0x04..=0x06 | 0x0D => limits(0, 65535),
        _ => limits(0, 0),
    }
}

#[tactic(auto, unfolding(meaning::specs::Table::table, meaning::specs::Table::lookup, meaning::specs::Table::row_of))]
fn size_of(command: u8) -> Limits
    ensures { result ≡ (row_of full command).size }
{
    match command {
        0x04 => up_to(1, Bytes::REGION),
        0x05..=0x06 => up_to(1, Bytes::DATA),
        0x0D => up_to(0, Bytes::DATA),
        0x21 => up_to(1, Bytes::NAME),
        _ => limits(0, 0),
    }
}

pub fn row_of(command: u8) -> Row
    ensures { result ≡ row_of full command }
{
    Row {
        kind: kind_of(command),
        load: load_of(command),
        word4: word4_of(command),
        start: start_of(command),
        size: size_of(command),
    }
}

// Whether a command of this kind is for this node, one of the allowed.
#[tactic(auto, unfolding(meaning::specs::Table::suits))]
pub fn suits(kind: Kind, node: u8) -> bool
    ensures { result ≡ suits kind node }
{
    match kind {
        Kind::Plaque(_) => node != 32,
        Kind::Continuous => node != 32,
        Kind::ResetReader => node != 32,
        Kind::Gateway(_) => node == 32,
        Kind::Unknown => false,
    }
}

#[tactic(auto, unfolding(meaning::specs::Table::carries))]
fn carries(load: Load, size: u16) -> Bytes
    ensures { result.0 ≡ carries load size }
{
    match load {
        Load::Nothing => Bytes(0),
        Load::One => Bytes(1),
        Load::Size => Bytes(size),
    }
}

// The data that a command carries.
#[tactic(auto, unfolding(meaning::specs::Table::carried))]
pub fn carried(row: Row, m: Command) -> Bytes
    ensures { result.0 ≡ carried row m }
{
    let load = row.load;
    carries(load, m.size)
}
