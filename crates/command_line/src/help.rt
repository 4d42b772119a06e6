//! The texts of help.

/// What the program is.
pub const GCO: &str = "Labels pixels by minimum cuts. The answer is proved to be right.";

/// What follows the list of commands.
pub const GCO_AFTER: &str = "\
Each command reads standard input and writes its answer to standard output.

Exit status:
  0  the answer, or help that was asked for, was written
  1  the run was refused: standard error has one line `refused N ..`
  2  the command line was refused: standard error says why

Example:
  gco restore --smooth linear --trunc 40 < noisy.pgm > restored.pgm

`gco COMMAND --help` says what a command reads and writes, and what `--threads` does.";

/// What is told where `clap` has no text.
pub const COMMANDS: &str =
    "gco takes one of the commands restore, stereo, segment, energy and label\n";

/// The command whose help has a text after the options.
pub enum After {
    Restore,
    Stereo,
    Segment,
    Energy,
    Label,
}

impl After {
    /// What the command reads and writes.
    pub fn text(&self) -> &'static str {
        match self {
            After::Restore => RESTORE_AFTER,
            After::Stereo => STEREO_AFTER,
            After::Segment => SEGMENT_AFTER,
            After::Energy => ENERGY_AFTER,
            After::Label => LABEL_AFTER,
        }
    }
}

/// What `gco restore` is.
pub const RESTORE: &str = "Restores a picture: reads one PGM image, writes one";

/// What `gco restore` reads and writes.
const RESTORE_AFTER: &str = "\
Reads a PGM image of at most 256 grey levels and writes one of the same size and levels: each pixel gets a
level near its own, with few and small jumps between neighbours. The energy is the sum of the differences
between old and new levels, plus the weight times the cost of each two neighbours' levels, plus the label
cost for each level that some pixel has (gco-v3's setLabelCost, for all labels). It is made smaller by
moves, each to the best picture that it reaches. Then standard error has the line
`energy E data D smooth S`, with ` label L` at its end where `--label-cost` was given.

With `--bound` the line `bound A B` comes after it: A times the energy is at most B times that of any
picture. It is `bound none` where no such numbers are known: after swaps, where the last cycle still
changed something, with a label cost above 0, and for costs that are no metric, as quadratic ones mostly.

`--threads` has threads share the work; the picture is the same. They decide and cut parts of a large move
side by side. Pictures of fewer than 20000 pixels gain nothing by it.

Exit status: 0 answered, 1 refused (standard error has one line `refused N ..`), 2 not understood.

Example:
  gco restore --smooth linear --trunc 40 --weight 4 < noisy.pgm > restored.pgm";

/// What `gco stereo` is.
pub const STEREO: &str =
    "Matches two pictures: reads the left and the right PGM image, writes how far each pixel moved";

/// What `gco stereo` reads and writes.
const STEREO_AFTER: &str = "\
Reads two PGM images of one size, the left one first, and writes an image with a label for each pixel of the
left one: label l says that it stands l columns further left in the right one. A label costs the difference
of the two samples, or the cap where that is less or no such column is there, plus the weight times the
cost of each two neighbours' labels. Then standard error has the line `energy E data D smooth S`.

With `--bound` the line `bound A B` comes after it: A times the energy is at most B times that of any
labels. It is `bound none` where no such numbers are known: after swaps, where the last cycle still
changed something, and for costs that are no metric, as quadratic ones mostly are.

`--threads` has threads share the work; the picture is the same. They decide and cut parts of a large move
side by side. Pictures of fewer than 20000 pixels gain nothing by it.

Exit status: 0 answered, 1 refused (standard error has one line `refused N ..`), 2 not understood.

Example:
  cat left.pgm right.pgm | gco stereo --labels 16 --weight 10 > moved.pgm";

/// What `gco segment` is.
pub const SEGMENT: &str =
    "Parts a picture in two: reads a PGM image and one of seeds, writes one of 0 and 1";

/// What `gco segment` reads and writes.
const SEGMENT_AFTER: &str = "\
Reads two PGM images of one size, the picture and then its seeds (0 free, 1 label 0, 2 label 1), and writes
an image with the label of each pixel. A free pixel's label costs its difference from the low sample (label
0) or the high one (label 1), a seed's other label 10000000. Two neighbours of unlike labels cost `strong`,
or `weak` where an edge runs between them. Then standard error has the line `energy E data D smooth S`.

`--threads` has threads share the work; the picture is the same. They decide and cut parts of a large move
side by side. Pictures of fewer than 20000 pixels gain nothing by it.

Exit status: 0 answered, 1 refused (standard error has one line `refused N ..`), 2 not understood.

Example:
  cat picture.pgm seeds.pgm | gco segment --low 60 --high 170 > parts.pgm";

/// The options.
pub const SMOOTH: &str =
    "Cost of two labels: potts (0 or 1), linear (their difference) or quadratic (its square)";

pub const TRUNC: &str = "Where the linear and the quadratic cost are cut off, 1 to 10000";

pub const WEIGHT: &str = "Factor of the cost of two neighbours' labels, 0 to 1000";

pub const NEIGHBOURS: &str = "Neighbours of a pixel: 4 (by an edge) or 8 (by an edge or a corner)";

pub const MOVES: &str = "Moves to make: expansion (of one label) or swap (of two)";

pub const CYCLES: &str = "Most cycles of moves, 0 to 1000; one that changes nothing is the last";

pub const LABEL_COST: &str =
    "Cost of each label that some pixel has, 0 to 10000000; above 0 with expansions alone";

pub const BOUND: &str = "Also say how near the energy is to the least, by a line `bound A B`";

pub const LABELS: &str = "How many labels, 1 to 256";

pub const CAP: &str = "Greatest cost of a label at a pixel, 0 to 10000000";

pub const LOW: &str = "Sample of label 0, 0 to 65535";

pub const HIGH: &str = "Sample of label 1, 0 to 65535";

pub const STRONG: &str = "Cost of unlike labels where no edge runs, 0 to 1000";

pub const WEAK: &str = "Cost of unlike labels across an edge, 0 to 1000";

pub const EDGE: &str = "Greatest difference of samples that is no edge, 0 to 65535";

pub const THREADS: &str =
    "Threads that share the work, 1 to 64; without it one thread does all. The answer is the same";

pub const BLOCKS: &str = "With --threads: blocks that a cut is split in, 1 to 256";

pub const RING: &str =
    "With --threads: most messages on the way from one block to another, 1 to 65536";

pub const TURNS: &str =
    "With --threads: most turns drawn in a round, beside the first of each block, 0 to 1000000";

pub const ROUNDS: &str =
    "With --threads: most rounds of a cut; one thread then ends it, 0 to 10000";

/// What `gco energy` is.
pub const ENERGY: &str = "The least value of an energy of yes-no variables, and where it stands";

/// What `gco energy` reads and writes.
const ENERGY_AFTER: &str = "\
Reads a TOML file: the number of variables, a constant, and terms of one, two or three variables
with the table of their values. Each term has to be regular.

Writes two lines: `minimum M`, and `assignment` with one digit for each variable. Of the least
assignments it is the one with the fewest ones.

`--threads` has workers share the cut, if its network has 4096 nodes or more; the answer is the same. With
some 250000 variables and more it takes about as long so, with fewer longer.

Exit status: 0 answered, 1 refused (standard error has one line `refused N ..`), 2 not understood.

Example:
  printf 'variables = 1\\nterms = [{ on = [0], values = [5, 2] }]' | gco energy
prints
  minimum 2
  assignment 1";

/// What `gco label` is.
pub const LABEL: &str = "A labelling of low energy, by expansions of labels or swaps of two";

/// What `gco label` reads and writes.
const LABEL_AFTER: &str = "\
Reads a TOML file: the numbers of sites and labels, the cost of each label at each site (data), the cost
of two labels at the sites of a pair (smooth, trunc), the pairs with their weights (pairs), the
labelling to start from (start), the moves to make (moves, cycles), and the cost of each label that some
site has (label_costs, gco-v3's setLabelCost, for expansions alone). What is left out has a default, but
for sites, labels and data.

Makes cycles of moves, each to the best labelling that it reaches, until one changes nothing or as many
as are allowed are done. Writes two lines: `energy E data D smooth S`, the energy and its parts, with
` label L` at its end where the file has label_costs, and `labels` with the label of each site.

With `--bound` a third line is `bound A B`: A times the energy is at most B times that of any labelling.
It is `bound none` where no such numbers are known: after swaps, where the last cycle still changed
something, with a label cost above 0, and where smooth is no metric, as quadratic costs mostly are none.

`--threads` has threads share the work; the labels are the same. They decide and cut parts of a large move
side by side. Problems of fewer than 20000 sites gain nothing by it.

Exit status: 0 answered, 1 refused (standard error has one line `refused N ..`), 2 not understood.

Example:
  printf 'sites = 2\\nlabels = 2\\ndata = [0, 3, 3, 0]\\npairs = [[0, 1, 3]]' | gco label
prints
  energy 3 data 3 smooth 0
  labels 0 0";
