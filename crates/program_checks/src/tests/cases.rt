//! Runs of the program as text. A case has a line for the words, one for the file `in`, one for what is left on the
//! desk, and where the desk fails, one that says how. What several cases begin with stands in front of them once.
//!
//! The file is given by parts between strokes: the text and the numbers of four bytes that it begins with; how many
//! bytes follow, and which; and others of these by their places. What is left is the status, each output by its name,
//! the note, the line of a refusal, and how much of the input was not taken.

const BASINS: &str = "basins --volume in --labels l --low 1";

const SEGMENT: &str =
    "segment --volume in --labels l --tree t --low 1 --merge 50/1 --chunk 4,1,1 --workers 1";

const SEGMENT_A_ROW: &str = "\
segment --volume in --labels l --tree t --low 1 --merge 50/1 --chunk 4,1,1 --workers 1
AFFVOL01 4 1 1 3 0 0 / 12 0 / 200 3 / 50 6 / 180 9";

/// Runs that end with an answer: the lines that cases begin with, and the cases.
pub static ANSWERED: [(&str, &str); 9] = [
    ("", SHORT_ROWS),
    ("", ROWS_OF_EIGHT),
    ("", THREE_BASINS),
    ("", CUBE),
    (
        "segment --volume in --labels l --tree t --low 1 --merge 40/1 --chunk 2,3,1 --workers 1",
        TWO_LEAVES,
    ),
    (
        "segment --volume in --labels l --tree t --low 1 --merge 40/1 --chunk 2,3,1 --workers 2",
        TWO_LEAVES,
    ),
    (
        "segment --volume in --labels l --tree t --low 1 --merge 40/1 --chunk 2,3,1 --workers 3",
        TWO_LEAVES,
    ),
    (
        "segment --volume in --labels l --tree t --low 1 --merge 40/1 --chunk 2,3,1 --workers 32",
        TWO_LEAVES,
    ),
    ("", OTHER_TASKS),
];

/// Runs that are refused for their words or their input.
pub static REFUSED: [(&str, &str); 5] = [
    ("", NO_WORDS),
    ("", TOO_MANY_LEAVES),
    (BASINS, FLAWED_VOLUMES),
    (SEGMENT, FLAWED_VOLUMES),
    ("show --tree in", FLAWED_TREES),
];

/// Runs on which a call of the desk fails.
pub static FAILED: [(&str, &str); 1] = [(SEGMENT_A_ROW, FAULTS)];

/// Four voxels in a row, and one.
const SHORT_ROWS: &str = "\
basins --volume in --labels l --low 1
AFFVOL01 4 1 1 3 0 0 / 12 0 / 200 3 / 50 6 / 180 9
0 | l AFFLAB01 4 1 1 4 0 0 1 1 3 3 | voxels 4;foreground 4;basins 2;

segment --volume in --labels l --tree t --low 1 --merge 50/1 --chunk 4,1,1 --workers 1
AFFVOL01 4 1 1 3 0 0 / 12 0 / 200 3 / 50 6 / 180 9
0 | l AFFLAB01 4 1 1 4 0 0 1 1 1 1 | t AFFTRE01 4 1 1 50 1 1 1 3 50 0 1 0 6 0 | voxels 4;basins 2;merges 1;regions 1;level 0 nodes 1 merges 1 passed 0;

segment --workers 1 --low=1 --tree t --chunk=4,1,1 --labels=l --merge 50/1 --volume in
AFFVOL01 4 1 1 3 0 0 / 12 255 / 200 3 / 50 6 / 180 9
0 | l AFFLAB01 4 1 1 4 0 0 1 1 1 1 | t AFFTRE01 4 1 1 50 1 1 1 3 50 0 1 0 6 0 | voxels 4;basins 2;merges 1;regions 1;level 0 nodes 1 merges 1 passed 0;

segment --volume in --labels l --tree t --low 1 --merge 51/1 --chunk 4,1,1 --workers 1
AFFVOL01 4 1 1 3 0 0 / 12 0 / 200 3 / 50 6 / 180 9
0 | l AFFLAB01 4 1 1 4 0 0 1 1 3 3 | t AFFTRE01 4 1 1 51 1 0 | voxels 4;basins 2;merges 0;regions 2;level 0 nodes 1 merges 0 passed 0;

segment --volume in --labels l --tree t --low 1 --merge 50/1 --chunk 1,1,1 --workers 1
AFFVOL01 4 1 1 3 0 0 / 12 0 / 200 3 / 50 6 / 180 9
0 | l AFFLAB01 4 1 1 4 0 0 1 1 1 1 | t AFFTRE01 4 1 1 50 1 1 1 3 50 0 1 0 6 0 | voxels 4;basins 2;merges 1;regions 1;level 0 nodes 4 merges 0 passed 4;level 1 nodes 2 merges 0 passed 2;level 2 nodes 1 merges 1 passed 0;

basins --volume in --labels=a=b --low=007
AFFVOL01 4 1 1 3 0 0 / 12 0 / 200 3 / 6 6 / 7 9
0 | a=b AFFLAB01 4 1 1 4 0 0 1 1 3 3 | voxels 4;foreground 4;basins 2;

segment --volume in --labels l --tree t --low 255 --merge 50/1 --chunk 4,1,1 --workers 1
AFFVOL01 4 1 1 3 0 0 / 12 0 / 200 3 / 50 6 / 180 9
0 | l AFFLAB01 4 1 1 4 0 0 0 0 0 0 | t AFFTRE01 4 1 1 50 1 0 | voxels 4;basins 0;merges 0;regions 0;level 0 nodes 1 merges 0 passed 0;

segment --volume in --labels l --tree t --low 190 --merge 50/1 --chunk 4,1,1 --workers 1
AFFVOL01 4 1 1 3 0 0 / 12 0 / 200 3 / 50 6 / 180 9
0 | l AFFLAB01 4 1 1 4 0 0 1 1 0 0 | t AFFTRE01 4 1 1 50 1 0 | voxels 4;basins 1;merges 0;regions 1;level 0 nodes 1 merges 0 passed 0;

segment --volume in --labels l --tree t --low 1 --merge 0/1 --chunk 4,1,1 --workers 1
AFFVOL01 4 1 1 3 0 0 / 12 0 / 200 3 9
0 | l AFFLAB01 4 1 1 4 0 0 1 1 1 1 | t AFFTRE01 4 1 1 0 1 1 1 3 0 0 1 0 6 0 | voxels 4;basins 2;merges 1;regions 1;level 0 nodes 1 merges 1 passed 0;

segment --volume in --labels l --tree t --low 1 --merge 1/1 --chunk 2,1,1 --workers 1
AFFVOL01 4 1 1 3 0 0 / 12 0 / 100 3 6 9
0 | l AFFLAB01 4 1 1 4 0 0 1 1 1 1 | t AFFTRE01 4 1 1 1 1 0 | voxels 4;basins 1;merges 0;regions 1;level 0 nodes 2 merges 0 passed 2;level 1 nodes 1 merges 0 passed 0;

segment --volume in --labels l --tree t --low 1 --merge 1/1 --chunk 1,1,1 --workers 1
AFFVOL01 1 1 1 3 0 0 / 3 255
0 | l AFFLAB01 1 1 1 4 0 0 0 | t AFFTRE01 1 1 1 1 1 0 | voxels 1;basins 0;merges 0;regions 0;level 0 nodes 1 merges 0 passed 0;";

/// Eight voxels in a row, whose basins are pairs.
const ROWS_OF_EIGHT: &str = "\
segment --volume in --labels l --tree t --low 1 --merge 90/1 --chunk 6,1,1 --workers 1
AFFVOL01 8 1 1 3 0 0 / 24 0 / 200 3 9 15 21 / 100 6 18 / 90 12
0 | l AFFLAB01 8 1 1 4 0 0 1 1 1 1 1 1 1 1 | t AFFTRE01 8 1 1 90 1 3 1 3 100 0 1 0 6 0 5 7 100 0 1 0 18 0 1 5 90 0 1 0 12 0 | voxels 8;basins 4;merges 3;regions 1;level 0 nodes 2 merges 1 passed 3;level 1 nodes 1 merges 2 passed 0;

segment --volume in --labels l --tree t --low 1 --merge 50/1 --chunk 6,1,1 --workers 1
AFFVOL01 8 1 1 3 0 0 / 24 0 / 200 3 9 15 21 / 60 6 / 50 12 / 100 18
0 | l AFFLAB01 8 1 1 4 0 0 1 1 1 1 1 1 1 1 | t AFFTRE01 8 1 1 50 1 3 5 7 100 0 1 0 18 0 1 3 60 0 1 0 6 0 1 5 50 0 1 0 12 0 | voxels 8;basins 4;merges 3;regions 1;level 0 nodes 2 merges 1 passed 3;level 1 nodes 1 merges 2 passed 0;

segment --volume in --labels l --tree t --low 1 --merge 50/1 --chunk 6,1,1 --workers 1
AFFVOL01 8 1 1 3 0 0 / 24 0 / 200 3 9 15 21 / 60 6 / 40 12 / 100 18
0 | l AFFLAB01 8 1 1 4 0 0 1 1 1 1 5 5 5 5 | t AFFTRE01 8 1 1 50 1 2 5 7 100 0 1 0 18 0 1 3 60 0 1 0 6 0 | voxels 8;basins 4;merges 2;regions 2;level 0 nodes 2 merges 1 passed 2;level 1 nodes 1 merges 1 passed 0;

segment --volume in --labels l --tree t --low 1 --merge 100/1 --chunk 4,1,1 --workers 1
AFFVOL01 8 1 1 3 0 0 / 24 0 / 200 3 9 15 21 / 100 6 12 18
0 | l AFFLAB01 8 1 1 4 0 0 1 1 1 1 1 1 1 1 | t AFFTRE01 8 1 1 100 1 3 1 3 100 0 1 0 6 0 1 5 100 0 1 0 12 0 1 7 100 0 1 0 18 0 | voxels 8;basins 4;merges 3;regions 1;level 0 nodes 2 merges 0 passed 4;level 1 nodes 1 merges 3 passed 0;";

/// A layer of three basins, 1, 3 and 5, where 5 has contacts with both others: with 3 by edge 12, and with 1 by the
/// edges 30 and 48.
const THREE_BASINS: &str = "\
segment --volume in --labels l --tree t --low 1 --merge 100/1 --chunk 6,3,1 --workers 1
AFFVOL01 6 3 1 3 0 0 / 54 0 / 200 3 9 15 19 21 22 24 27 31 33 34 37 39 40 42 43 45 46 49 51 52 / 100 12 30 48 / 10 6 25 28
0 | l AFFLAB01 6 3 1 4 0 0 1 1 3 3 3 3 1 1 1 1 3 3 1 1 1 1 3 3 | t AFFTRE01 6 3 1 100 1 1 3 5 100 0 1 0 12 0 | voxels 18;basins 3;merges 1;regions 2;level 0 nodes 1 merges 1 passed 0;

segment --volume in --labels l --tree t --low 1 --merge 100/1 --chunk 6,3,1 --workers 1
AFFVOL01 6 3 1 3 0 0 / 54 0 / 200 3 9 15 19 21 22 24 27 31 33 34 37 39 40 42 43 45 46 49 51 52 / 100 12 48 / 101 30 / 10 6 25 28
0 | l AFFLAB01 6 3 1 4 0 0 1 1 3 3 1 1 1 1 1 1 1 1 1 1 1 1 1 1 | t AFFTRE01 6 3 1 100 1 1 1 5 201 0 2 0 30 0 | voxels 18;basins 3;merges 1;regions 2;level 0 nodes 1 merges 1 passed 0;

segment --volume in --labels l --tree t --low 1 --merge 50/1 --chunk 6,3,1 --workers 1
AFFVOL01 6 3 1 3 0 0 / 54 0 / 200 3 9 15 19 21 22 24 27 31 33 34 37 39 40 42 43 45 46 49 51 52 / 100 12 / 90 30 48 / 10 6 25 28
0 | l AFFLAB01 6 3 1 4 0 0 1 1 3 3 3 3 1 1 1 1 3 3 1 1 1 1 3 3 | t AFFTRE01 6 3 1 50 1 1 3 5 100 0 1 0 12 0 | voxels 18;basins 3;merges 1;regions 2;level 0 nodes 1 merges 1 passed 0;";

/// A cube of equal affinities, in leaves that do not fit evenly.
const CUBE: &str = "\
segment --volume in --labels l --tree t --low 1 --merge 1/1 --chunk 3,3,3 --workers 1
AFFVOL01 8 8 8 3 0 0 / 1536 77
0 | l AFFLAB01 8 8 8 4 0 0 \
1 1 1 1 1 1 1 1 1 1 1 1 1 1 1 1 1 1 1 1 1 1 1 1 1 1 1 1 1 1 1 1 1 1 1 1 1 1 1 1 1 1 1 1 1 1 1 1 1 1 1 1 1 1 1 1 1 1 1 1 1 1 1 1 \
1 1 1 1 1 1 1 1 1 1 1 1 1 1 1 1 1 1 1 1 1 1 1 1 1 1 1 1 1 1 1 1 1 1 1 1 1 1 1 1 1 1 1 1 1 1 1 1 1 1 1 1 1 1 1 1 1 1 1 1 1 1 1 1 \
1 1 1 1 1 1 1 1 1 1 1 1 1 1 1 1 1 1 1 1 1 1 1 1 1 1 1 1 1 1 1 1 1 1 1 1 1 1 1 1 1 1 1 1 1 1 1 1 1 1 1 1 1 1 1 1 1 1 1 1 1 1 1 1 \
1 1 1 1 1 1 1 1 1 1 1 1 1 1 1 1 1 1 1 1 1 1 1 1 1 1 1 1 1 1 1 1 1 1 1 1 1 1 1 1 1 1 1 1 1 1 1 1 1 1 1 1 1 1 1 1 1 1 1 1 1 1 1 1 \
1 1 1 1 1 1 1 1 1 1 1 1 1 1 1 1 1 1 1 1 1 1 1 1 1 1 1 1 1 1 1 1 1 1 1 1 1 1 1 1 1 1 1 1 1 1 1 1 1 1 1 1 1 1 1 1 1 1 1 1 1 1 1 1 \
1 1 1 1 1 1 1 1 1 1 1 1 1 1 1 1 1 1 1 1 1 1 1 1 1 1 1 1 1 1 1 1 1 1 1 1 1 1 1 1 1 1 1 1 1 1 1 1 1 1 1 1 1 1 1 1 1 1 1 1 1 1 1 1 \
1 1 1 1 1 1 1 1 1 1 1 1 1 1 1 1 1 1 1 1 1 1 1 1 1 1 1 1 1 1 1 1 1 1 1 1 1 1 1 1 1 1 1 1 1 1 1 1 1 1 1 1 1 1 1 1 1 1 1 1 1 1 1 1 \
1 1 1 1 1 1 1 1 1 1 1 1 1 1 1 1 1 1 1 1 1 1 1 1 1 1 1 1 1 1 1 1 1 1 1 1 1 1 1 1 1 1 1 1 1 1 1 1 1 1 1 1 1 1 1 1 1 1 1 1 1 1 1 1 \
| t AFFTRE01 8 8 8 1 1 0 | voxels 512;basins 1;merges 0;regions 1;\
level 0 nodes 27 merges 0 passed 27;level 1 nodes 8 merges 0 passed 8;level 2 nodes 1 merges 0 passed 0;";

/// A layer in two leaves, whose two basins have seven contact edges.
const TWO_LEAVES: &str = "\
AFFVOL01 4 3 1 3 0 0 / 36 0 / 200 3 6 9 13 18 21 25 27 30 33 / 40 15 16 19 22 28 31 34
0 | l AFFLAB01 4 3 1 4 0 0 1 1 1 1 1 1 1 1 1 1 1 1 | t AFFTRE01 4 3 1 40 1 1 1 6 280 0 7 0 15 0 | voxels 12;basins 2;merges 1;regions 1;level 0 nodes 2 merges 0 passed 4;level 1 nodes 1 merges 1 passed 0;";

/// Volumes that are made from a number, and a tree that is shown.
const OTHER_TASKS: &str = "\
make --volume v --start 0 --dims 3,1,1
none
0 | v AFFVOL01 3 1 1 3 0 0 2865841980 2740428642 and 129 | voxels 3;

trial --start 7 --dims 16,16,16 --low 20 --merge 128/1 --chunk 4,4,4 --workers 1
none
0 | voxels 4096;basins 1109;merges 859;regions 250;level 0 nodes 64 merges 5 passed 1671;level 1 nodes 8 merges 209 passed 1013;level 2 nodes 1 merges 645 passed 0;

trial --workers=8 --chunk=4,4,4 --merge=128/1 --low=20 --dims=16,16,16 --start=7
none
0 | voxels 4096;basins 1109;merges 859;regions 250;level 0 nodes 64 merges 5 passed 1671;level 1 nodes 8 merges 209 passed 1013;level 2 nodes 1 merges 645 passed 0;

show --tree in
AFFTRE01 4 1 1 50 1 1 1 3 50 0 1 0 6 0
0 | dims 4 1 1;threshold 50/1;records 1;1 3 50/1 6;";

/// Words that are no settings: none, and below lists of words with one fault each.
const NO_WORDS: &str = "
none
2 | agglo: words not understood;";

pub const FAULTY_WORDS: &str = "\
segment --volume in --labels l --low 1 --merge 50/1 --chunk 4,1,1 --workers 1
basins --volume in --labels l --low 256
segment --volume in --labels l --tree t --low 1 --merge 5/0 --chunk 4,1,1 --workers 1
segment --volume in --labels l --tree t --low 1 --merge 5/1 --chunk 0,1,1 --workers 1
segment --volume in --labels l --tree t --low 1 --merge 5/1 --chunk 4,1,1 --workers 33
segment --volume in --labels l --tree l --low 1 --merge 5/1 --chunk 4,1,1 --workers 1
basins --volume in --volume in --labels l --low 1
basins --volume in --labels -l --low 1
make --volume v --start 0 --dims 4,0,1
shows --tree t
show
show --tree=
show --tree --
show --tree -
show --tree t --tree t
show --tree t u
show --tre t
show --tree t --help
show -- --tree t
show --low 1 --tree t
basins --volume v --labels l --low 256
basins --volume v --labels v --low 1
basins --volume v --labels l --low=1 --low=1
segment --tree t
make --volume v --start 4294967296 --dims 1,1,1
make --volume v --start 0 --dims 65535,4097,1
trial --start 0 --dims 4,1,1 --low 1 --merge 5/0 --chunk 1,1,1 --workers 1
trial --start 0 --dims 4,1,1 --low 1 --merge 5/1 --chunk 0,1,1 --workers 1
trial --start 0 --dims 4,1,1 --low 1 --merge 5/1 --chunk 1,1,1 --workers 33";

const TOO_MANY_LEAVES: &str = "\
segment --volume in --labels l --tree t --low 1 --merge 5/1 --chunk 1,1,1 --workers 1
AFFVOL01 64 64 65 3 0 0
4 | agglo: 266240 leaves are too many;

trial --start 0 --dims 64,64,65 --low 1 --merge 5/1 --chunk 1,1,1 --workers 1
none
4 | agglo: 266240 leaves are too many;";

const FLAWED_VOLUMES: &str = "\
AFFVOL01 4 1 1 3 0 / 3 0
3 | agglo: volume fault 1: header of 31 bytes;

AFFVOL02 4 1 1 3 0 0 / 1 0
3 | agglo: volume fault 2: magic; | 1 bytes left

AFFVOL01 4 1 1 4 0 0 / 1 0
3 | agglo: volume fault 3: 4 channels; | 1 bytes left

AFFVOL01 4 1 1 3 0 1 / 1 0
3 | agglo: volume fault 4: reserved bytes; | 1 bytes left

AFFVOL01 4 0 1 3 0 0 / 1 0
3 | agglo: volume fault 5: axis 1 is zero; | 1 bytes left

AFFVOL01 65536 1 1 3 0 0 / 1 0
3 | agglo: volume fault 6: axis 0 is above 65535; | 1 bytes left

AFFVOL01 65535 4097 1 3 0 0 / 1 0
3 | agglo: volume fault 7: too many voxels; | 1 bytes left

AFFVOL01 4 1 1 3 0 0 / 11 0
3 | agglo: volume fault 8: body of 11 bytes;

AFFVOL01 4 1 1 3 0 0 / 13 0
3 | agglo: volume fault 9: bytes after the body;";

const FLAWED_TREES: &str = "\
AFFTRE01 4 1 1 50 1 / 3 0
7 | agglo: tree fault 1: header of 31 bytes;

AFFTRE02 4 1 1 50 1 1 / 1 0
7 | agglo: tree fault 2: magic; | 1 bytes left

AFFTRE01 4 0 1 50 1 1 / 1 0
7 | agglo: tree fault 3: dims; | 1 bytes left

AFFTRE01 4 1 1 50 0 1 / 1 0
7 | agglo: tree fault 4: denominator; | 1 bytes left

AFFTRE01 4 1 1 50 1 4 / 1 0
7 | agglo: tree fault 5: 4 records; | 1 bytes left

AFFTRE01 4 1 1 50 1 1 1 3 50 0 1 0 6 / 3 0
7 | agglo: tree fault 6: body of 31 bytes;

AFFTRE01 4 1 1 50 1 1 1 3 50 0 1 0 6 0 / 1 0
7 | agglo: tree fault 7: bytes after the body;

AFFTRE01 4 1 1 50 1 1 3 3 50 0 1 0 6 0
7 | agglo: tree fault 8: record 0;

AFFTRE01 4 1 1 50 1 1 1 3 256 0 1 0 6 0
7 | agglo: tree fault 9: record 0;

AFFTRE01 8 1 1 90 1 3 5 7 100 0 1 0 18 0 1 3 100 0 1 0 6 0 1 5 90 0 1 0 12 0
7 | agglo: tree fault 10: record 1;

AFFTRE01 4 1 1 50 1 1 1 3 49 0 1 0 6 0
7 | agglo: tree fault 11: record 0;";

/// Each call that can fail does so once: openings, reads, writes and a port without room.
const FAULTS: &str = "\
5 | agglo: input failed;
65536 open-in 1

5 | agglo: input failed; | 28 bytes left
65536 read 2

6 | agglo: output failed;
65536 open-out 1

6 | l AFFLAB01 4 1 | agglo: output failed;
65536 labels 2

6 | l AFFLAB01 4 1 1 4 0 0 1 1 | agglo: output failed;
40 open-out 0

6 | l AFFLAB01 4 1 1 4 0 0 1 1 1 1 | agglo: output failed;
65536 open-out 2

6 | l AFFLAB01 4 1 1 4 0 0 1 1 1 1 | t AFFTRE01 4 1 1 50 1 1 1 3 50 0 | agglo: output failed;
65536 tree 4

6 | l AFFLAB01 4 1 1 4 0 0 1 1 1 1 | t AFFTRE01 4 1 1 50 1 1 1 3 50 0 1 0 6 0 | voxels 4;basins  | agglo: output failed;
65536 note 2";
