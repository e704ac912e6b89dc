// The call for C and Rust, exported: a slice is a pointer and a length, an answer a number and three values.
#![tactic(auto)]

ghost use Rattle.std.specs.Prelude.{length};
ghost use Rattle.pool.specs.Names.{semantic};
ghost use Rattle.codegen.specs.Call.{lists, answer_of, Promised};

use codegen::ffi;
use codegen::outputs::Outputs;
use tables::lent::Tables;

// The number is 0 for a listing, whose values are its lines, errors and forecast; else it is the refusal's, whose values are its place and two zeros.
#[unsafe(no_mangle)]
pub extern "C" fn lucia_gen_code(
    strings: &[u32],
    bytes: &[u8],
    symbols: &[u32],
    references: &[u32],
    functions: &[u32],
    members: &[u32],
    records: &[u32],
    markers: &mut [u32],
    constants: &mut [u32],
    names: &mut [u32],
    errors: &mut [u32],
    lines: &mut [u32],
    values: &mut [u64],
) -> u32
    ensures { Promised
        (answer_of strings.now bytes.now symbols.now references.now functions.now
        members.now records.now (length markers.old) (length constants.old) (length names.old)
        (length errors.old) (length lines.old))
        (semantic symbols.now references.now functions.now members.now) records.now
        result values.old values.new
        (lists markers.old constants.old names.old errors.old lines.old)
        (lists markers.new constants.new names.new errors.new lines.new) }
{
    let tables = Tables {
        strings,
        bytes,
        symbols,
        references,
        functions,
        members,
        records,
    };
    let mut outputs = Outputs {
        markers,
        constants,
        names,
        errors,
        lines,
    };
    ffi::lucia_gen_code(&tables, &mut outputs, values)
}
