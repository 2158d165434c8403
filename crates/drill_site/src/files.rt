//! The whole file.

ghost use Rattle.std.specs.Prelude.{◌≡◌, ◌≤◌, ◌++◌, IfOk};
ghost use Rattle.drill_site.specs.Files.{drill_file as file_text, list_head, loops_of_panel, marker_line, part_text};
ghost use Rattle.drill_site.specs.Files.{points_of_loop, points_of_panel, text_of_panel, zones_of_panel};

use crate::lines::{loop_line, marker_head, output_line, point_line, term_text, zone_line};
use crate::part::Part;
use std::alloc::Global;
use tick_units::NoMemory;

/// The site file of a drill.
#[tactic(auto, unfolding(crate::specs::Files::drill_file))]
pub fn drill_file(alloc: Global) -> Result<Vec<u8>, NoMemory>
    ensures { IfOk result (λ text. text.items ≡ file_text) }
{
    let mut text = Vec::new(alloc);
    text.extend_from_slice(b"format = 1\nsite = \"drill\"\npanels = 8\n")?;
    push_part(Part::Loops, &mut text)?;
    push_part(Part::Zones, &mut text)?;
    push_part(Part::Points, &mut text)?;
    push_part(Part::Outputs, &mut text)?;
    push_part(Part::Markers, &mut text)?;
    Ok(text)
}

// Puts a list behind a text.
#[tactic(auto, unfolding(crate::specs::Files::part_text))]
fn push_part(part: Part, text: &mut Vec<u8>) -> Result<(), NoMemory>
    ensures { IfOk result (λ _. text.new.items ≡ text.old.items ++ part_text part) }
{
    text.extend_from_slice(key_of(part))?;
    for before in 0..8 {
        push_panel(part, before + 1, text)?;
    }
    text.extend_from_slice(b"]\n")?;
    Ok(())
}

fn key_of(part: Part) -> &'static [u8]
    ensures { result.now ≡ list_head part }
{
    match part {
        Part::Loops => b"loop = [\n",
        Part::Zones => b"zone = [\n",
        Part::Points => b"point = [\n",
        Part::Outputs => b"output = [\n",
        Part::Markers => b"marker = [\n",
    }
}

// Puts what stands in a list for a panel behind a text.
fn push_panel(part: Part, panel: u8, text: &mut Vec<u8>) -> Result<(), NoMemory>
    ensures { IfOk result (λ _. text.new.items ≡ text.old.items ++ text_of_panel part panel) }
{
    match part {
        Part::Loops => push_loops(panel, text),
        Part::Zones => push_zones(panel, text),
        Part::Points => push_points(panel, text),
        Part::Outputs => push_line(output_line(panel).as_str(), text),
        Part::Markers => push_marker(panel, text),
    }
}

#[tactic(auto, unfolding(crate::specs::Files::loops_of_panel))]
fn push_loops(panel: u8, text: &mut Vec<u8>) -> Result<(), NoMemory>
    ensures { IfOk result (λ _. text.new.items ≡ text.old.items ++ loops_of_panel panel) }
{
    for before in 0..4 {
        push_line(loop_line(panel, before + 1).as_str(), text)?;
    }
    Ok(())
}

#[tactic(auto, unfolding(crate::specs::Files::zones_of_panel))]
fn push_zones(panel: u8, text: &mut Vec<u8>) -> Result<(), NoMemory>
    ensures { IfOk result (λ _. text.new.items ≡ text.old.items ++ zones_of_panel panel) }
{
    for before in 0..32 {
        push_line(zone_line(panel, before + 1).as_str(), text)?;
    }
    Ok(())
}

#[tactic(auto, unfolding(crate::specs::Files::points_of_panel))]
fn push_points(panel: u8, text: &mut Vec<u8>) -> Result<(), NoMemory>
    ensures { IfOk result (λ _. text.new.items ≡ text.old.items ++ points_of_panel panel) }
{
    for before in 0..4 {
        push_points_of_loop(panel, before + 1, text)?;
    }
    Ok(())
}

#[tactic(auto, unfolding(crate::specs::Files::points_of_loop))]
fn push_points_of_loop(panel: u8, line: u8, text: &mut Vec<u8>) -> Result<(), NoMemory>
    requires { (1 ≤ line) × (line ≤ 4) }
    ensures { IfOk result (λ _. text.new.items ≡ text.old.items ++ points_of_loop panel line) }
{
    for before in 0..96 {
        push_line(point_line(panel, line, before + 1).as_str(), text)?;
    }
    Ok(())
}

// A marker of each panel is any of its zones.
#[tactic(auto, unfolding(crate::specs::Files::marker_line))]
fn push_marker(panel: u8, text: &mut Vec<u8>) -> Result<(), NoMemory>
    ensures { IfOk result (λ _. text.new.items ≡ text.old.items ++ marker_line panel) }
{
    push_line(marker_head(panel).as_str(), text)?;
    for before in 0..32 {
        push_line(term_text(panel, before + 1).as_str(), text)?;
    }
    push_line("] },\n", text)?;
    Ok(())
}

fn push_line(line: &str, text: &mut Vec<u8>) -> Result<(), NoMemory>
    ensures { IfOk result (λ _. text.new.items ≡ text.old.items ++ line.now) }
{
    text.extend_from_slice(line.as_bytes())?;
    Ok(())
}
