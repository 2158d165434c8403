//! Each part of a draft, read from its table.

ghost use Rattle.std.specs.Prelude.{◌≡◌, IfOk};
ghost use Rattle.toml.specs.View.{table_view, view};
ghost use Rattle.site_document.specs.Drafts.{
  byte_at as byte_in,
  byte_of as byte_from,
  digest_from,
  draft_of,
  from_table,
  is_manual_at as is_manual_in,
  isolator_from,
  loop_of,
  marker_of,
  name_at as name_in,
  output_kind_at as output_kind_in,
  output_of,
  point_of,
  rule_as,
  short_at as short_in,
  combine_as,
  term_as as term_of_kind,
  term_of_parts,
  term_from,
  waits_of,
  zone_of,
};
ghost use Rattle.site_document.specs.Tables.{text_at as text_in};
ghost use Rattle.site_document.specs.Terms.{split_term as split_term_of};

use crate::collect::{FromValue, collect};
use crate::draft::Draft;
use crate::draft_marker::DraftMarker;
use crate::draft_output::DraftOutput;
use crate::draft_point::DraftPoint;
use crate::draft_term::DraftTerm;
use crate::draft_zone::DraftZone;
use crate::key::Key;
use crate::key_text::KeyText;
use crate::tables::{format_at, items_at, marker_kind_at, natural, natural_at, text_at, type_at};
use crate::terms::{TermKind, split_term};
use crate::words::{MarkerKind, ZoneType, manual_of, output_kind_of};
use hex::FromHex;
use site_types::{Combine, LoopPlan, OutputKind, Rule, Waits, read_number};
use std::alloc::{AllocError, Global};
use toml::{Table, Value};

/// The number of a byte; 0 where it is too great.
pub fn byte_of(number: u64) -> u8
    ensures { result ≡ byte_from number }
{
    if number < 256 { number as u8 } else { 0 }
}

fn byte_at(key: Key, table: &Table) -> u8
    ensures { result ≡ byte_in key (table_view table.now) }
{
    byte_of(natural_at(table, key))
}

fn short_at(key: Key, table: &Table) -> u16
    ensures { result ≡ short_in key (table_view table.now) }
{
    let number = natural_at(table, key);
    if number < 65536 { number as u16 } else { 0 }
}

fn name_at(alloc: Global, key: Key, table: &Table) -> Result<KeyText, AllocError>
    ensures { IfOk result (λ name. name ≡ name_in key (table_view table.now)) }
{
    match text_at(table, key) {
        Some(text) => KeyText::from_str(alloc, text),
        None => KeyText::from_str(alloc, ""),
    }
}

fn word_at(key: Key, table: &Table) -> &str
    ensures { result.now ≡ name_in key (table_view table.now) }
{
    match text_at(table, key) {
        Some(text) => text,
        None => "",
    }
}

impl FromValue for [u8; 32] {
    ghost read = { digest_from };

    #[tactic(auto, unfolding(crate::specs::Drafts::digest_from))]
    fn from_value(_alloc: Global, value: &Value) -> Result<Option<[u8; 32]>, AllocError> {
        match value.as_str() {
            None => Ok(None),
            Some(text) => Ok(<[u8; 32] as FromHex>::from_hex(text).ok()),
        }
    }
}

impl FromValue for u8 {
    ghost read = { isolator_from };

    #[tactic(auto, unfolding(crate::specs::Drafts::isolator_from))]
    fn from_value(_alloc: Global, value: &Value) -> Result<Option<u8>, AllocError> {
        match value.as_integer() {
            None => Ok(None),
            Some(number) => Ok(Some(byte_of(natural(number)))),
        }
    }
}

impl FromValue for DraftTerm {
    ghost read = { term_from };

    #[tactic(auto, unfolding(crate::specs::Drafts::term_from))]
    fn from_value(alloc: Global, value: &Value) -> Result<Option<DraftTerm>, AllocError> {
        match value.as_str() {
            None => Ok(None),
            Some(text) => read_term(alloc, text),
        }
    }
}

#[tactic(auto, unfolding(crate::specs::Drafts::term_from))]
fn read_term(alloc: Global, text: &str) -> Result<Option<DraftTerm>, AllocError>
    ensures { IfOk result (λ term. term ≡ term_of_parts (split_term_of text.now)) }
{
    match split_term(text) {
        None => Ok(None),
        Some((kind, rest)) => read_operand(alloc, kind, rest),
    }
}

fn read_operand(alloc: Global, kind: TermKind, rest: &str) -> Result<Option<DraftTerm>, AllocError>
    ensures { IfOk result (λ term. term ≡ term_of_kind kind rest.now) }
{
    match kind {
        TermKind::Zone => Ok(Some(DraftTerm::Zone(KeyText::from_str(alloc, rest)?))),
        TermKind::Manual => Ok(Some(DraftTerm::Manual(KeyText::from_str(alloc, rest)?))),
        TermKind::Fault => match read_number(rest.as_bytes()) {
            None => Ok(None),
            Some(panel) => Ok(Some(DraftTerm::Fault(panel))),
        },
        TermKind::Marker => Ok(Some(DraftTerm::Marker(KeyText::from_str(alloc, rest)?))),
    }
}

impl FromValue for LoopPlan {
    ghost read = { from_table loop_of };

    fn from_value(alloc: Global, value: &Value) -> Result<Option<LoopPlan>, AllocError> {
        match value.as_table() {
            None => Ok(None),
            Some(table) => Ok(Some(read_loop(alloc, table)?)),
        }
    }
}

impl FromValue for DraftZone {
    ghost read = { from_table zone_of };

    fn from_value(alloc: Global, value: &Value) -> Result<Option<DraftZone>, AllocError> {
        match value.as_table() {
            None => Ok(None),
            Some(table) => Ok(Some(read_zone(alloc, table)?)),
        }
    }
}

impl FromValue for DraftPoint {
    ghost read = { from_table point_of };

    fn from_value(alloc: Global, value: &Value) -> Result<Option<DraftPoint>, AllocError> {
        match value.as_table() {
            None => Ok(None),
            Some(table) => Ok(Some(read_point(alloc, table)?)),
        }
    }
}

impl FromValue for DraftOutput {
    ghost read = { from_table output_of };

    fn from_value(alloc: Global, value: &Value) -> Result<Option<DraftOutput>, AllocError> {
        match value.as_table() {
            None => Ok(None),
            Some(table) => Ok(Some(read_output(alloc, table)?)),
        }
    }
}

impl FromValue for DraftMarker {
    ghost read = { from_table marker_of };

    fn from_value(alloc: Global, value: &Value) -> Result<Option<DraftMarker>, AllocError> {
        match value.as_table() {
            None => Ok(None),
            Some(table) => Ok(Some(read_marker(alloc, table)?)),
        }
    }
}

#[tactic(auto, unfolding(crate::specs::Drafts::loop_of))]
fn read_loop(alloc: Global, table: &Table) -> Result<LoopPlan, AllocError>
    ensures { IfOk result (λ plan. plan ≡ loop_of (table_view table.now)) }
{
    Ok(LoopPlan {
        panel: byte_at(Key::Panel, table),
        line: byte_at(Key::Loop, table),
        last: byte_at(Key::Last, table),
        isolators: collect(alloc, items_at(table, Key::Isolators))?,
    })
}

fn rule_of(zone_type: ZoneType, verify: u16, within: u16) -> Rule
    ensures { result ≡ rule_as zone_type verify within }
{
    match zone_type {
        ZoneType::Plain => Rule::Plain,
        ZoneType::A => Rule::A { verify, within },
        ZoneType::B => Rule::B { within },
        ZoneType::C => Rule::C,
    }
}

#[tactic(auto, unfolding(crate::specs::Drafts::zone_of))]
fn read_zone(alloc: Global, table: &Table) -> Result<DraftZone, AllocError>
    ensures { IfOk result (λ zone. zone ≡ zone_of (table_view table.now)) }
{
    let rule = rule_of(
        type_at(table),
        short_at(Key::Verify, table),
        short_at(Key::Within, table),
    );
    Ok(DraftZone {
        name: name_at(alloc, Key::Name, table)?,
        panel: byte_at(Key::Panel, table),
        number: byte_at(Key::Number, table),
        rule,
        partner: partner_at(alloc, table)?,
    })
}

fn partner_at(alloc: Global, table: &Table) -> Result<Option<KeyText>, AllocError>
    ensures { IfOk result (λ name. name ≡ text_in Key.Partner (table_view table.now)) }
{
    match text_at(table, Key::Partner) {
        None => Ok(None),
        Some(text) => Ok(Some(KeyText::from_str(alloc, text)?)),
    }
}

#[tactic(auto, unfolding(crate::specs::Drafts::is_manual_at))]
fn is_manual_at(table: &Table) -> bool
    ensures { result ≡ is_manual_in (table_view table.now) }
{
    match manual_of(word_at(Key::PointKind, table)) {
        None => false,
        Some(manual) => manual,
    }
}

#[tactic(auto, unfolding(crate::specs::Drafts::point_of))]
fn read_point(alloc: Global, table: &Table) -> Result<DraftPoint, AllocError>
    ensures { IfOk result (λ point. point ≡ point_of (table_view table.now)) }
{
    Ok(DraftPoint {
        name: name_at(alloc, Key::Name, table)?,
        panel: byte_at(Key::Panel, table),
        line: byte_at(Key::Loop, table),
        address: byte_at(Key::Address, table),
        zone: name_at(alloc, Key::Zone, table)?,
        manual: is_manual_at(table),
    })
}

#[tactic(auto, unfolding(crate::specs::Drafts::output_kind_at))]
fn output_kind_at(table: &Table) -> OutputKind
    ensures { result ≡ output_kind_in (table_view table.now) }
{
    match output_kind_of(word_at(Key::OutputKind, table)) {
        None => OutputKind::Sounder,
        Some(kind) => kind,
    }
}

#[tactic(auto, unfolding(crate::specs::Drafts::output_of))]
fn read_output(alloc: Global, table: &Table) -> Result<DraftOutput, AllocError>
    ensures { IfOk result (λ output. output ≡ output_of (table_view table.now)) }
{
    Ok(DraftOutput {
        name: name_at(alloc, Key::Name, table)?,
        panel: byte_at(Key::Panel, table),
        number: byte_at(Key::Number, table),
        kind: output_kind_at(table),
        marker: name_at(alloc, Key::When, table)?,
        delay: short_at(Key::Delay, table),
    })
}

fn combine_of(kind: MarkerKind, count: u8) -> Combine
    ensures { result ≡ combine_as kind count }
{
    match kind {
        MarkerKind::All => Combine::All,
        MarkerKind::Any => Combine::Any,
        MarkerKind::AtLeast => Combine::AtLeast(count),
    }
}

#[tactic(auto, unfolding(crate::specs::Drafts::marker_of))]
fn read_marker(alloc: Global, table: &Table) -> Result<DraftMarker, AllocError>
    ensures { IfOk result (λ marker. marker ≡ marker_of (table_view table.now)) }
{
    Ok(DraftMarker {
        name: name_at(alloc, Key::Name, table)?,
        combine: combine_of(marker_kind_at(table), byte_at(Key::Count, table)),
        terms: collect(alloc, items_at(table, Key::Terms))?,
    })
}

#[tactic(auto, unfolding(crate::specs::Drafts::waits_of))]
fn waits_at(top: &Table) -> Waits
    ensures { result ≡ waits_of (table_view top.now) }
{
    Waits {
        mains: short_at(Key::MainsWait, top),
        standby: short_at(Key::StandbyWait, top),
        voltage: short_at(Key::VoltageWait, top),
        charger: short_at(Key::ChargerWait, top),
    }
}

/// The draft that a document spells, which is the document's where no pass finds anything.
#[tactic(auto, unfolding(crate::specs::Drafts::draft_of))]
pub fn spell_draft(alloc: Global, top: &Table) -> Result<Draft, AllocError>
    ensures { IfOk result (λ draft. draft ≡ draft_of (table_view top.now)) }
{
    let second = collect(alloc, items_at(top, Key::Level2))?;
    let third = collect(alloc, items_at(top, Key::Level3))?;
    let fourth = collect(alloc, items_at(top, Key::Level4))?;
    Ok(Draft {
        format: format_at(top),
        name: name_at(alloc, Key::Site, top)?,
        panels: byte_at(Key::Panels, top),
        waits: waits_at(top),
        codes: [second, third, fourth],
        loops: collect(alloc, items_at(top, Key::Loops))?,
        zones: collect(alloc, items_at(top, Key::Zones))?,
        points: collect(alloc, items_at(top, Key::Points))?,
        outputs: collect(alloc, items_at(top, Key::Outputs))?,
        markers: collect(alloc, items_at(top, Key::Markers))?,
    })
}
