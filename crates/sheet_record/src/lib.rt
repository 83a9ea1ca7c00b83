// SPDX-License-Identifier: Apache-2.0
// A record of a run sheet as its 24 bytes. They are read as the record again.
#![tactic(auto)]

ghost use Rattle.std.specs.Prelude.{◌≡◌, Some, None, if◌then◌else◌};
ghost use Rattle.sheet_lines.specs.Record.{read_record};
ghost use Rattle.sheet_record.specs.Good.{good};

use sheet_lines::{RECORD, Record};

// The bytes that are read as the record; of a record off its range, bytes that are read as `bad`.
#[tactic(auto, using(basics::proofs::Tests::tests), unfolding(crate::specs::Good::good, sheet_lines::specs::Record::read_record, sheet_lines::specs::Record::in_range))]
pub fn write_record(call: Record) -> [u8; RECORD]
    ensures { read_record result ≡ (if good call then Some call else None) }
{
    let mut bytes = [0; RECORD];
    let Ok(place) = u8::try_from(call.place) else {
        return bytes;
    };
    let Ok(number) = u32::try_from(call.number) else {
        return bytes;
    };
    if 15 < place {
        return bytes;
    }
    bytes[0] = call.code;
    bytes[1] = u8::from(call.allow);
    bytes[2] = call.key.kind;
    bytes[3] = place;
    bytes[4..8].copy_from_slice(&number.to_le_bytes());
    bytes[8..16].copy_from_slice(&call.key.file.to_le_bytes());
    bytes[16..].copy_from_slice(&call.key.index.to_le_bytes());
    bytes
}
