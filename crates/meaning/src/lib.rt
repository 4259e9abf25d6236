// What stages mean. The definitions and laws stand in specs/ and their proofs in proofs/; the
// functions here work out the figures that are quoted for a stage, and their contracts name the
// theorems. A cast narrows what is proved to fit; `try_from` would ask for an answer to a failure
// that cannot come.
#![tactic(auto)]

ghost use Rattle.std.specs.Prelude.{◌≡◌, ◌*◌, ◌==◌, None, Some};
ghost use Rattle.std.specs.Prelude.{if◌then◌else◌};
ghost use Rattle.meaning.specs.Colours.{ceiling, half_count, number};
ghost use Rattle.meaning.specs.Curves.{CurvesKeepTheLaws, steepness_of_curve};
ghost use Rattle.meaning.specs.Lattices.{LatticesKeepTheLaws};
ghost use Rattle.meaning.specs.Limits.{LimitsNeverAct};
ghost use Rattle.meaning.specs.Links.{LinksAreClose, NodesAreNumbered, error_of_link};
ghost use Rattle.meaning.specs.Matrices.{MatricesKeepTheLaws, RowsAreSignedSums};
ghost use Rattle.meaning.specs.Stages.{EqualInEqualOut, JoiningKeepsTheLaws};
ghost use Rattle.meaning.specs.Stages.{error_of_joined, steepness_of_joined, unclaimed};
ghost use Rattle.meaning.specs.WorkedFigures.{WorkedFigures, cube_figures, fading_figures, figures};
ghost use Rattle.meaning.specs.WorkedFigures.{link_figures};

pub mod faithful;

pub use faithful::Faithful;

// The channels of a colour.
pub const CHANNELS: usize = 4;

// The largest count of a channel.
pub const MAX_COUNT: u16 = 65_535;

// A grain is one 65,536th of a count.
pub const GRAINS: u32 = 65_536;

// Half a count, in grains: what one rounding may add.
pub const HALF_COUNT: u32 = 32_768;

// The whole range of a channel, 65,535 counts, in grains.
pub const FULL_RANGE: u32 = 4_294_901_760;

// The steepness that claims nothing: a number, since the definitions and every quoted figure have
// it so.
pub const UNCLAIMED: u32 = 1 << 30;

// How many channels a stage or a pixel has.
#[derive(Clone, Copy, PartialEq, Eq, Debug)]
pub enum Channels {
    One,
    Three,
    Four,
}

impl Channels {
    // 1, 3 or 4.
    pub fn number(self) -> usize
        ensures { result ≡ number self }
    {
        match self {
            Channels::One => 1,
            Channels::Three => 3,
            Channels::Four => 4,
        }
    }
}

// Names the theorem: two stages that keep the laws keep them joined.
fn joining_keeps_the_laws()
    ensures { JoiningKeepsTheLaws }
{}

// Names the theorem: equal exact colours have equal results in every stage that keeps the laws.
fn equal_in_equal_out()
    ensures { EqualInEqualOut }
{}

// Names the theorem: curves keep the laws, whatever their tables hold.
fn curves_keep_the_laws()
    ensures { CurvesKeepTheLaws }
{}

// Names the theorem: lattices keep the laws, whatever their nodes hold.
fn lattices_keep_the_laws()
    ensures { LatticesKeepTheLaws }
{}

// Names the theorem: the limits that stand in definitions act on nothing that the types hold.
fn limits_never_act()
    ensures { LimitsNeverAct }
{}

// Names the theorem: a matrix keeps the laws, whatever its coefficients are.
fn matrices_keep_the_laws()
    ensures { MatricesKeepTheLaws }
{}

// Names the theorem: the value of a matrix row is its signed sum, held to the range.
fn rows_are_signed_sums()
    ensures { RowsAreSignedSums }
{}

// Names the theorem: a baked link answers within its error of the exact value of its stage.
fn links_are_close()
    ensures { LinksAreClose }
{}

// Names the theorem: the nodes of a link are counted in lattice order, as in every lattice.
fn nodes_are_numbered()
    ensures { NodesAreNumbered }
{}

// Names the worked figures, as one statement.
fn figures_hold()
    ensures { WorkedFigures }
{}

// What a steepness claims; nothing where it is 2^30.
fn claimed(steepness: u32) -> Option<u32>
    ensures { result ≡ (if steepness == unclaimed then None else Some steepness) }
{
    (steepness != UNCLAIMED).then_some(steepness)
}

// The steepness of two stages joined. Joined so, stages keep the laws; and equal exact colours have
// equal results in every stage that keeps them.
pub fn joined_steepness(first: u32, second: u32) -> u32
    ensures value { result ≡ steepness_of_joined first second }
    ensures law { JoiningKeepsTheLaws }
    ensures equal { EqualInEqualOut }
{
    joining_keeps_the_laws();
    equal_in_equal_out();
    let (Some(first), Some(second)) = (claimed(first), claimed(second)) else {
        return UNCLAIMED;
    };
    let product = u64::from(first) * u64::from(second);
    product
        .div_ceil(u64::from(GRAINS))
        .min(u64::from(UNCLAIMED)) as u32
}

// The error of two stages joined: the second's steepness carries the first's error on, and the
// second's own error is added.
pub fn joined_error(steepness: u32, first: u32, second: u32) -> u32
    ensures { result ≡ error_of_joined steepness first second }
{
    let Some(steepness) = claimed(steepness) else {
        return FULL_RANGE;
    };
    let carried = (u64::from(steepness) * u64::from(first)).div_ceil(u64::from(GRAINS));
    (carried + u64::from(second)).min(u64::from(FULL_RANGE)) as u32
}

// The error of a link with `grid` grid points, baked from a stage with this error and steepness.
// With it, a baked link is close to the exact map of its stage; and its nodes are counted in
// lattice order.
#[tactic(auto, using(crate::proofs::Rounding::div_ceil_is))]
pub fn link_error(error: u32, steepness: u32, grid: u8) -> u32
    ensures value { result ≡ error_of_link error steepness grid }
    ensures law { LinksAreClose }
    ensures numbered { NodesAreNumbered }
{
    links_are_close();
    nodes_are_numbered();
    let (Some(steepness), 2..) = (claimed(steepness), grid) else {
        return FULL_RANGE;
    };
    let steps = u64::from(grid - 1);
    let rise = u64::from(steepness) * (2 * u64::from(MAX_COUNT) + steps);
    let carried = rise.div_ceil(2 * steps);
    (u64::from(error) + carried + u64::from(HALF_COUNT)).min(u64::from(FULL_RANGE)) as u32
}

// The steepness of tables with `points` points along a channel, where one step in every channel at
// once moves the value by at most `step` counts. With it, curves and lattices keep the laws; and no
// limit of theirs, nor of a sample, acts on what the types hold.
pub fn table_steepness(points: u16, step: u32) -> u32
    ensures value { result ≡ steepness_of_curve points step }
    ensures curves { CurvesKeepTheLaws }
    ensures lattices { LatticesKeepTheLaws }
    ensures limits { LimitsNeverAct }
{
    curves_keep_the_laws();
    lattices_keep_the_laws();
    limits_never_act();
    let rise = u64::from(GRAINS) * u64::from(points.saturating_sub(1)) * u64::from(step);
    rise.div_ceil(u64::from(MAX_COUNT))
        .min(u64::from(UNCLAIMED)) as u32
}

// The error of a matrix: none where all its coefficients are whole, else half a count. With it,
// matrices keep the laws; and each row's value is its signed sum, held to the range. A plain
// `bool`, since nothing stands beside it.
pub fn matrix_error(whole: bool) -> u32
    ensures value { result ≡ (if whole then 0 else half_count) }
    ensures law { MatricesKeepTheLaws }
    ensures signed { RowsAreSignedSums }
{
    matrices_keep_the_laws();
    rows_are_signed_sums();
    if whole { 0 } else { HALF_COUNT }
}

// Grains as 100,000ths of a count, rounded up: a bound that is quoted in counts with five decimals
// is never quoted too small.
pub fn hundred_thousandths(grains: u32) -> u64
    ensures { result ≡ ceiling (grains * 100000) 65536 }
{
    (u64::from(grains) * 100_000).div_ceil(u64::from(GRAINS))
}

// The worked figures, stage by stage.
#[derive(Clone, Copy)]
pub struct Figures {
    // Two answers of a bent curve and its steepness, an answer rounded upward and one held to 0 of
    // a matrix, and an error carried through the curve.
    pub curves: [u32; 6],
    // Three answers of a lattice of three channels, and its steepness.
    pub cube: [u32; 4],
    // One answer of a lattice of four channels.
    pub fading_cube: [u32; 1],
    // The errors of a link with 33 grid points, and of one with 2.
    pub link: [u32; 2],
}

// The worked figures, which hold of the definitions.
pub fn worked_figures() -> Figures
    ensures hold { WorkedFigures }
    ensures curves { result.curves ≡ figures }
    ensures cube { result.cube ≡ cube_figures }
    ensures fading { result.fading_cube ≡ fading_figures }
    ensures link { result.link ≡ link_figures }
{
    figures_hold();
    Figures {
        curves: [1_000, 1_001, 129_072, 3_001, 0, 97_304],
        cube: [15_200, 13_400, 36_000, 166_003],
        fading_cube: [18_000],
        link: [134_379_520, 4_294_901_760],
    }
}
