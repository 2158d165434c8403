//! Whole records, tick by tick.

ghost use Rattle.site_types.specs.Valid.{IsValid};

use anyhow::{Result, bail};
use record_lines::{Line, LineReader, Step};
use site_types::{Event, Site};
use std::alloc::Global;
use tick_units::Order;

/// A tick of a record: what happens in it, and the order of its turns where the record gives one.
#[derive(Drop)]
pub struct Block {
    pub events: Vec<Event>,
    pub order: Option<Order>,
}

/// The ticks of a record.
pub fn blocks_of(alloc: Global, site: &Site, record: &str) -> Result<Vec<Block>>
    requires { IsValid site.now }
{
    let mut blocks: Vec<Block> = Vec::new(alloc);
    let mut reader = LineReader::new();
    for text in record.lines() {
        let bytes = format!(in alloc; "{text}\n")?;
        let Step::Line(line) = reader.feed(site, bytes.as_str().as_bytes()).step else {
            bail!("no line of a record: {text}");
        };
        match line {
            Line::Tick(_) => blocks.push(Block {
                events: Vec::new(alloc),
                order: None,
            })?,
            Line::Event(event) => {
                if let Some(block) = blocks.last_mut() {
                    block.events.push(event)?;
                }
            }
            Line::Order(order) => {
                if let Some(block) = blocks.last_mut() {
                    block.order = Some(order);
                }
            }
            Line::End => {}
        }
    }
    Ok(blocks)
}
