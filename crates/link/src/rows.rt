// A row of pixels through a stage, with the error bound of what it delivers. Rows and link rows share this.
ghost use Rattle.std.specs.Prelude.{◌≡◌, ◌+◌, min, length};
ghost use Rattle.meaning.specs.Colours.{full_range};
ghost use Rattle.link.specs.Rows.{row_pixel, row_pixels};

use crate::pixel::Pixel;
use meaning::FULL_RANGE;
use stage::Stage;

// Two errors together, held to the full range.
fn bound(stage: u32, kind: u32) -> u32
    ensures { result ≡ min full_range (stage + kind) }
{
    stage.saturating_add(kind).min(FULL_RANGE)
}

// The pixel that leaves where this one enters.
fn converted<S: Stage, P: Pixel, Q: Pixel>(stage: &S, pixel: &P) -> Q
    ensures { result ≡ row_pixel (S.Stage.meaning stage.now) P.Pixel.kind Q.Pixel.kind pixel.now }
{
    Q::make(&stage.answer(&pixel.show()))
}

// Each leaving pixel from the entering pixel at its place.
fn convert<S: Stage, P: Pixel, Q: Pixel>(stage: &S, entering: &[P], leaving: &mut [Q])
    requires { length entering.now ≡ length leaving.old }
    ensures { let m = S.Stage.meaning stage.now in
        leaving.new ≡ row_pixels m P.Pixel.kind Q.Pixel.kind entering.now }
{
    // By index, since what a zip with `iter_mut` writes is not known after the loop.
    for (i, pixel) in entering.iter().enumerate() {
        leaving[i] = converted(stage, pixel);
    }
}

// Every row goes this way, through a stage or through a link: each entering pixel is converted. Returns the bound, where `error`
// is that of the stage or link.
pub(crate) fn deliver<S: Stage, P: Pixel, Q: Pixel>(
    stage: &S,
    error: u32,
    entering: &[P],
    leaving: &mut [Q],
) -> u32
    requires { length entering.now ≡ length leaving.old }
    ensures bound { result ≡ min full_range (error + Q.Pixel.kind.error) }
    ensures leaving { let m = S.Stage.meaning stage.now in
        leaving.new ≡ row_pixels m P.Pixel.kind Q.Pixel.kind entering.now }
{
    convert(stage, entering, leaving);
    bound(error, Q::error())
}
