// Writing a full link as a lut16 element.
ghost use Rattle.std.specs.Prelude.{◌≡◌, ◌+◌, ◌*◌, ◌/◌, ◌%◌, ◌^◌, ◌≤◌, ◌∷◌, ◌++◌, [], drop, length};
ghost use Rattle.meaning.specs.Colours.{number};
ghost use Rattle.link.specs.Written.{head_bytes, put_over, straight_tables, two_bytes_each, written, written_length};

use meaning::Channels;

// How many bytes the element has, for so many numbers in its nodes.
pub(crate) fn written_length(ins: Channels, outs: Channels, numbers: usize) -> usize
    requires { numbers ≤ 2 ^ 34 }
    ensures { result ≡ written_length ins outs numbers }
{
    52 + 4 * ins.number() + 2 * numbers + 4 * outs.number()
}

// The bytes in front of the tables.
#[tactic(auto, unfolding(crate::specs::Written::head_bytes))]
fn head(ins: Channels, outs: Channels, grid: u8) -> [u8; 52]
    ensures { result ≡ head_bytes ins outs grid }
{
    let (ins, outs) = (ins.number() as u8, outs.number() as u8);
    [
        b'm', b'f', b't', b'2', 0, 0, 0, 0, ins, outs, grid, 0, // the type and the shape
        0, 1, 0, 0, 0, 0, 0, 0, 0, 0, 0, 0, // the matrix that changes nothing: 1, 0, 0
        0, 0, 0, 0, 0, 1, 0, 0, 0, 0, 0, 0, // 0, 1, 0
        0, 0, 0, 0, 0, 0, 0, 0, 0, 1, 0, 0, // 0, 0, 1
        0, 2, 0, 2, // the lengths of the tables
    ]
}

// The two bytes of a number, the high one first.
fn two_bytes(number: u16) -> [u8; 2]
    ensures { result ≡ number / 256 ∷ number % 256 ∷ [] }
{
    number.to_be_bytes()
}

// Puts bytes over those that stand from a place on.
#[tactic(auto, using(crate::proofs::WritingLaws::over_part))]
fn put(output: &mut [u8], at: usize, bytes: &[u8])
    requires { at + length bytes.now ≤ length output.old }
    ensures { output.new ≡ put_over output.old at bytes.now }
{
    output[at..at + bytes.len()].copy_from_slice(bytes);
}

// Puts down the table 0, 65,535 for each channel.
#[tactic(auto, using(crate::proofs::WritingLaws::straight_steps))]
fn put_straight_tables(output: &mut [u8], at: usize, channels: Channels)
    requires { at + 4 * number channels ≤ length output.old }
    ensures { output.new ≡ put_over output.old at (straight_tables (number channels)) }
{
    for k in 0..channels.number() {
        put(output, at + 4 * k, &[0, 0, 255, 255]);
    }
}

// Puts down the nodes' numbers, two bytes each.
#[tactic(auto, using(crate::proofs::WritingLaws::node_steps))]
fn put_nodes(output: &mut [u8], at: usize, nodes: &[u16])
    requires { at + 2 * length nodes.now ≤ length output.old }
    ensures { output.new ≡ put_over output.old at (two_bytes_each nodes.now) }
{
    for (k, node) in nodes.iter().enumerate() {
        put(output, at + 2 * k, &two_bytes(*node));
    }
}

// Writes the element of a link over the first bytes of the output; the bytes after it stay.
#[tactic(auto, using(crate::proofs::WritingLaws::element_steps))]
pub(crate) fn write_element(
    ins: Channels,
    outs: Channels,
    grid: u8,
    nodes: &[u16],
    output: &mut [u8],
)
    requires { written_length ins outs (length nodes.now) ≤ length output.old }
    ensures { let long = written_length ins outs (length nodes.now) in
        output.new ≡ written ins outs grid nodes.now ++ drop long output.old }
{
    let input_start = 52;
    let nodes_start = input_start + 4 * ins.number();
    let output_start = nodes_start + 2 * nodes.len();
    put(output, 0, &head(ins, outs, grid));
    put_straight_tables(output, input_start, ins);
    put_nodes(output, nodes_start, nodes);
    put_straight_tables(output, output_start, outs);
}
