// The laws of traces: reading from line to line is reading each line of the list of lines.
ghost use Rattle.rw_trace.specs.Refused.{RefusedLaw, ReadLaw};

/// A trace is refused with a number exactly where the line with this number, counted from 1, is refused and none before it is;
/// and it gives bits exactly where these are the bits of its lines, one by one. So `trace_of`, which `to_bits` meets, says
/// nothing of the way through the lines.
pub fn refused_law()
    ensures refused { RefusedLaw }
    ensures read { ReadLaw }
{}
