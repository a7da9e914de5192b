ghost use Rattle.std.specs.Prelude.{◌≡◌, ◌++◌, string_bytes, decimal, OnOk, OnErr};
ghost use Rattle.std.specs.List.{flat_map};
ghost use Rattle.aol_model_types.specs.Places.{step_text, place_text, limit_text};

use crate::place::{Place, PlaceStep};
use aol_shape::{LimitName, NoMemory};
use itoa::Buffer;

/// The name of a limit as status lines write it.
pub fn limit_text(name: LimitName) -> &'static str
    ensures { result.now ≡ limit_text name }
{
    match name {
        LimitName::Rank => "rank",
        LimitName::Entry => "entry",
        LimitName::Points => "points",
        LimitName::Number => "number",
        LimitName::Sums => "sums",
        LimitName::Expression => "expression",
        LimitName::Depth => "depth",
        LimitName::Ports => "ports",
        LimitName::Choices => "choices",
        LimitName::Name => "name",
        LimitName::Hierarchy => "hierarchy",
        LimitName::Nodes => "nodes",
        LimitName::Walk => "walk",
        LimitName::Work => "work",
        LimitName::Emission => "emission",
        LimitName::Lines => "lines",
        LimitName::Cells => "cells",
    }
}

/// Writes a number in decimal digits.
fn write_number(number: u32, out: &mut String) -> Result<(), NoMemory>
    ensures { OnOk result (string_bytes out.new ≡ string_bytes out.old ++ decimal number) }
{
    let mut buffer = Buffer::new();
    out.push_str(buffer.format(number))?;
    Ok(())
}

/// Writes `.key` or `[index]`.
fn write_step(step: PlaceStep, out: &mut String) -> Result<(), NoMemory>
    ensures { OnOk result (string_bytes out.new ≡ string_bytes out.old ++ step_text step) }
{
    match step {
        PlaceStep::Key(key) => {
            out.push_str(".")?;
            out.push_str(key.text())?;
        }
        PlaceStep::Index(index) => {
            out.push_str("[")?;
            write_number(index, out)?;
            out.push_str("]")?;
        }
    }
    Ok(())
}

/// Writes the steps one after another.
fn write_steps(steps: &[PlaceStep], out: &mut String) -> Result<(), NoMemory>
    ensures { OnOk result (string_bytes out.new ≡ string_bytes out.old ++ flat_map step_text steps.now) }
{
    for step in steps {
        write_step(*step, out)?;
    }
    Ok(())
}

/// Writes a place after what is in `out`.
fn write_place(place: &Place, out: &mut String) -> Result<(), NoMemory>
    ensures { OnOk result (string_bytes out.new ≡ string_bytes out.old ++ place_text place.now) }
{
    out.push_str("$")?;
    write_steps(place.steps(), out)?;
    if let Some(byte) = place.byte() {
        out.push_str("@")?;
        write_number(byte, out)?;
    }
    Ok(())
}

impl Place {
    /// Writes the place after what is in `out`: `$`, then `.key` or `[index]` for each step, then `@byte` where
    /// there is one. If memory runs out, `out` is as before.
    pub fn write_to(&self, out: &mut String) -> Result<(), NoMemory>
        ensures written { OnOk result (string_bytes out.new ≡ string_bytes out.old ++ place_text self.now) }
        ensures refused { OnErr result (string_bytes out.new ≡ string_bytes out.old) }
    {
        let mut text = String::new(*out.allocator());
        write_place(self, &mut text)?;
        out.push_str(text.as_str())?;
        Ok(())
    }
}
