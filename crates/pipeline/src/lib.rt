// Pipeline commands carried out: CONFIGURE replaces the rows in force and empties the store
// (document 01, "Configuration and entries", and 5, 6, 11, 10, 14).
#![tactic(auto)]

ghost use Rattle.std.specs.Prelude.{◌≡◌, ◌≤◌, length, drop};
ghost use Rattle.rules.specs.Frame.{row_size};
ghost use Rattle.rules.specs.Bytes.{parts};
ghost use Rattle.rules.specs.Named.{reason_of};
ghost use Rattle.frames.specs.Meaning.{pipeline_read, RowsThere};
ghost use Rattle.memory.specs.Layout.{control_in};
ghost use Rattle.pipeline.specs.Pipeline.{Refuses, CarriesOut};

use arbitration::Streams;
use frames::PipelineCommand;
use memory::{Configuration, Device};
use rows::Rows;
use rules::Reason;
use store::Tables;

// What a pipeline command leaves.
#[derive(Clone, Copy)]
pub struct Configured {
    pub configuration: Configuration,
    pub tables: Tables,
}

// The rows of a CONFIGURE, where they lie in its frame.
fn rows_in(command: PipelineCommand, frame: &[u8]) -> &[[u8; rules::ROW]]
    requires { RowsThere command frame.now }
    ensures rows { result.now ≡ parts command.count row_size (drop 28 frame.now) }
    ensures few { length result.now ≤ 8 }
{
    frame[28..].as_chunks().0
}

// Why a pipeline command is refused, if it is: 5, 6, 11 and 10; then 14, which is found from the bytes of the rows.
#[tactic(auto, unfolding(rules::specs::Reason::first, rules::specs::Call::configure_reason))]
pub fn refusal(
    device: Device,
    streams: &Streams,
    configuration: &Configuration,
    command: PipelineCommand,
    frame: &[u8],
) -> Result<(), Reason>
    requires { RowsThere command frame.now }
    ensures { Refuses (control_in device streams.now configuration.now) (pipeline_read command frame.now) (reason_of result) }
{
    let head = command.head;
    election::address_reason(head.device == device.id, head.role)?;
    if 0 < head.role {
        return Err(Reason::NotRoleZero);
    }
    if !streams.by_primary(head.role, head.id) {
        return Err(Reason::NotPrimary);
    }
    if !configuration::allowed(rows_in(command, frame)) {
        return Err(Reason::RowsNotAllowed);
    }
    Ok(())
}

// What an accepted pipeline command leaves: the rows of a CONFIGURE, and no entries.
pub fn carry_out(command: PipelineCommand, frame: &[u8]) -> Configured
    requires { RowsThere command frame.now }
    ensures { CarriesOut (pipeline_read command frame.now) result }
{
    Configured {
        configuration: Configuration {
            rows: Rows::read(rows_in(command, frame)),
        },
        tables: Tables::none(),
    }
}
