// How the tool is called.

// Where no subcommand is named.
pub(crate) const ANY: &str =
    "kiosk inspect | quote | convert | bake | colours ..; kiosk help tells more";

pub(crate) const INSPECT: &str = "kiosk inspect FILE..";

pub(crate) const QUOTE: &str = "kiosk quote TAG:FILE.. [--grid G | --all]";

pub(crate) const CONVERT: &str = "kiosk convert TAG:FILE.. [--grid G] [--budget N] IN OUT";

pub(crate) const BAKE: &str = "kiosk bake TAG:FILE.. --grid G OUT";

pub(crate) const COLOURS: &str = "kiosk colours TAG:FILE.. COUNTS..";

pub(crate) const HELP: &str = "\
kiosk inspect FILE..
    tells of each profile its spaces, and of its elements A2B0 and B2A0 the tables and the bounds, or what is wrong
kiosk quote TAG:FILE.. [--grid G | --all]
    tells steepness and error of the profiles, and with --grid the error of a link of G grid points,
    with --all those of all links
kiosk convert TAG:FILE.. [--grid G] [--budget N] IN OUT
    converts the picture IN to the picture OUT, directly, or with --grid through a link of G grid points,
    of which N nodes are filled before each row; without --budget all are filled before the first
kiosk bake TAG:FILE.. --grid G OUT
    writes a link of G grid points to OUT, as an element
kiosk colours TAG:FILE.. COUNTS..
    runs colours through the profiles
kiosk help
    prints this

TAG:FILE   A2B0 or B2A0, a colon and a profile; several run one after the other
G          2 to 33 grid points
N          one node or more
IN         a PGM or PPM, or a PAM that is GRAYSCALE, RGB or CMYK, with the largest sample 255 or 65535
OUT        a PGM, a PPM, or for four channels a CMYK PAM; or the link
COUNTS     the counts of a colour, 1, 3 or 4 from 0 to 65535, with commas between
";
