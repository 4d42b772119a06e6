//! Small random problems with what `gco label` says of them. Made by
//! tools/tables/random_problems.py, over all labellings: 300 problems, 168 of them of swaps, 75
//! that a refused move ends, 40 of these after a change.

/// A line for each problem: its file, a bar, what is said. A semicolon ends a line of these.
pub const PROBLEMS: &str = "\
    sites=6;smooth=[0,2,2,0];labels=2;cycles=2;start=[0,0,0,0,0,0];data=[3461378,1,1,0,6592083,1,0,\
    10000000,0,10000000,0,0];moves='swap';pairs=[[3,0,5],[2,3,5],[0,2,3],[5,3,3],[3,4,1],[5,3,1000],\
    [2,5]]|energy 24 data 2 smooth 22;labels 1 1 1 0 0 0;\n\
    smooth=[3,4,3,5];cycles=0;labels=2;pairs=[[0,3]];data=[0,0,0,0,1,0,0,1];start=[1,0,0,0];sites=4|\
    energy 4 data 1 smooth 3;labels 1 0 0 0;\n\
    cycles=100;sites=4;smooth=[0,5,8,8,5,0,4,6,8,4,0,4,8,6,4,0];data=[2,3,1,1,1,1,0,2,0,2,1,2,0,3,3,3];\
    moves='swap';start=[2,2,0,3];labels=4|energy 1 data 1 smooth 0;labels 2 2 0 0;\n\
    cycles=1000;smooth=[1,4,0,1,0,3,4,5,1,1,3,3,3,5,3,2];start=[1,0];pairs=[[0,1,2],[0,1,1],[0,1],[1,0],\
    [1,0],[1,0,1],[0,1]];data=[0,1,0,1,1,0,0,1];labels=4;sites=2|refused 24 pair 0 alpha 2;\n\
    labels=4;moves='swap';sites=2;cycles=1;smooth='potts';data=[8,1,0,7,0,7,9,2];trunc=1;pairs=[[1,0,2]]|\
    energy 2 data 0 smooth 2;labels 2 0;\n\
    pairs=[];smooth='potts';cycles=1;start=[1,0,0,0];labels=2;sites=4;trunc=4;data=[4,7,7,6,2,3,7,9]|\
    energy 19 data 19 smooth 0;labels 0 1 0 0;\n\
    data=[1,0,5,2,3,8,4,6,3,3,7,7,2,5];moves='expansion';labels=2;pairs=[[3,6,0],[6,0,3],[2,4,2],[2,0,0],\
    [4,0],[4,2,2],[0,1]];start=[1,1,0,0,0,0,0];sites=7;cycles=2;smooth=[10000,6030,0,10000]|\
    refused 24 pair 6 alpha 0;\n\
    smooth=[0,1,1,0];labels=2;moves='expansion';cycles=1;start=[0,0];data=[3,6,8,3];sites=2;pairs=[[1,0]]|\
    energy 7 data 6 smooth 1;labels 0 1;\n\
    pairs=[[6,1,1],[0,1,7],[2,4,0],[0,1,7],[6,2],[1,0,7],[0,2,2]];moves='expansion';data=[8154404,0,0,1,\
    10000000,10000000,10000000,10000000,1,2812179,1,5693313,6073057,1];trunc=5;start=[0,1,0,1,0,1,1];\
    sites=7;cycles=3;smooth='linear';labels=2|energy 20000004 data 20000004 smooth 0;labels 1 1 1 1 0 0 1;\n\
    pairs=[[0,1,3],[1,0,3],[2,3,1],[0,1],[1,0,3]];data=[0,1,3,0,2,0,2,0,3,0,0,3];labels=3;cycles=1000;\
    start=[0,0,0,2];sites=4;smooth=[0,0,9423,0,0,8534,9423,8534,0]|energy 0 data 0 smooth 0;\
    labels 0 0 1 0;\n\
    pairs=[[5,2,0],[2,1,5],[4,1,1],[4,5,7],[3,4,1],[0,5,7],[4,5]];data=[3,3,2,1,3,2,1,3,2,2,0,0];sites=6;\
    smooth=[5,5,1,0];labels=2;cycles=1;moves='swap';start=[0,0,1,0,0,0]|energy 11 data 11 smooth 0;\
    labels 1 1 1 1 1 1;\n\
    cycles=2;smooth='linear';sites=6;start=[1,0,1,0,0,0];moves='expansion';labels=3;trunc=4;data=[0,7,2,0,\
    2,2,0,7,0,2,2,8,5,2,3,7,6,8]|energy 10 data 10 smooth 0;labels 0 0 0 0 1 1;\n\
    labels=4;cycles=1;pairs=[[1,0],[0,1,2]];smooth='quadratic';trunc=9;sites=2;start=[3,0];moves='swap';\
    data=[0,0,1,2,0,2,0,3]|energy 5 data 2 smooth 3;labels 0 1;\n\
    data=[1,1,1,0,0,1,0,1,0,1,1,0];smooth=[5,2,0,2];pairs=[[4,5,0],[4,5,0],[0,3,0],[5,0]];cycles=100;\
    moves='swap';labels=2;start=[0,0,0,1,1,0];sites=6|refused 24 pair 3 alpha 0 beta 1;\n\
    start=[0,3,0,0,0];sites=5;moves='swap';pairs=[[2,1],[2,1],[0,3,5],[3,2,0],[2,1,1],[2,1]];data=[1,0,0,\
    0,5824194,8969859,10000000,0,1,10000000,0,1088330,0,10000000,10000000,0,10000000,0,1,1];labels=4;\
    smooth=[0,1,2,1,1,0,1,1,2,1,0,1,1,1,1,0];cycles=100|energy 4 data 0 smooth 4;labels 3 3 2 3 1;\n\
    moves='swap';labels=3;sites=2;cycles=3;data=[8,8,2,3,2,5];smooth=[0,5,3,5,0,1,3,1,0]|\
    energy 4 data 4 smooth 0;labels 2 1;\n\
    data=[1,10000000,10000000,6812155,1,10000000,0,8367405,0,10000000];sites=5;cycles=2;moves='expansion';\
    pairs=[[3,0,2],[3,0,0],[2,3],[1,2],[4,0],[4,2],[3,0,1]];start=[0,1,0,0,0];smooth=[0,0,0,0];labels=2|\
    energy 6812157 data 6812157 smooth 0;labels 0 1 0 0 0;\n\
    pairs=[[1,0,2],[1,0,2],[1,0,2],[0,1,3],[1,0,3],[1,0,0],[1,0,2]];smooth=[0,1,1,0];moves='swap';\
    start=[0,0];cycles=0;sites=2;labels=2;data=[3,9,6,1]|energy 9 data 9 smooth 0;labels 0 0;\n\
    labels=3;cycles=2;smooth=[0,2,4,2,0,2,4,2,0];pairs=[[2,1,2],[1,2],[1,2],[1,2,0],[1,0,1]];data=[1,1,0,\
    1,0,0,1,1,0];sites=3|energy 0 data 0 smooth 0;labels 2 2 2;\n\
    labels=3;data=[1463567,8098405,10000000,0,10000000,4123536];pairs=[[1,0,2],[1,0],[1,0,1],[0,1,3],\
    [0,1,3]];moves='swap';cycles=1;trunc=4;sites=2|energy 1463567 data 1463567 smooth 0;labels 0 0;\n\
    smooth=[4,1,2,4];pairs=[[3,0],[1,2],[3,2,1],[3,0,5],[3,0,5],[2,5,7],[3,0,5]];labels=2;sites=6;\
    moves='swap';data=[1,1,0,1,0,0,1,1,0,0,1,1]|refused 24 pair 0 alpha 0 beta 1;\n\
    data=[5,3,0,4,6,9,0,1,5,0,4,7,5,4,5,3,3,2,4,4,3,9,8,9,4,3,6,0];start=[0,2,0,0,0,0,0];\
    moves='expansion';sites=7;trunc=3;pairs=[[6,4,2],[2,0,0],[3,6],[3,6,1],[6,3,5],[2,1],[6,3,1]];\
    labels=4;cycles=1;smooth='linear'|energy 11 data 10 smooth 1;labels 2 2 1 3 3 0 3;\n\
    trunc=1;data=[1,1,0,0,0,0,0,1,1,1,1,1,1,1,0,1,1,1,0,0,1,0,1,1];sites=6;start=[0,0,1,0,2,1];cycles=0;\
    smooth='quadratic';moves='swap';pairs=[[4,0,2],[3,2,3],[2,3,3],[5,4],[3,4,5],[5,3],[3,4]];labels=4|\
    energy 19 data 3 smooth 16;labels 0 0 1 0 2 1;\n\
    labels=3;pairs=[[1,0,1],[1,0],[1,0,5],[0,1,1],[1,0,2],[0,1,2]];cycles=1000;sites=2;smooth='linear';\
    moves='swap';data=[4485791,0,1,1,0,10000000]|energy 0 data 0 smooth 0;labels 1 1;\n\
    moves='expansion';start=[2,0];pairs=[[1,0,5],[0,1,3],[1,0],[0,1,5],[0,1,5],[1,0],[1,0,2]];\
    smooth='quadratic';trunc=5;labels=4;sites=2;cycles=2;data=[9,5,2,2,6,1,7,6]|energy 6 data 6 smooth 0;\
    labels 1 1;\n\
    sites=3;pairs=[[0,2],[0,1,0],[2,0,1],[2,1,2],[1,0,0]];cycles=1;start=[2,0,2];trunc=4;moves='swap';\
    data=[1,4155968,0,1,10000000,3312272,0,0,2115616];smooth='linear';labels=3|energy 2 data 2 smooth 0;\
    labels 0 0 0;\n\
    trunc=9;pairs=[[1,6,3],[0,4,7]];data=[2,2,0,1,1,1,0,3,1,2,0,0,0,0];cycles=2;moves='swap';sites=7;\
    labels=2;smooth='potts';start=[0,0,0,0,0,0,0]|energy 4 data 4 smooth 0;labels 0 0 0 0 0 0 0;\n\
    labels=2;sites=4;smooth=[0,2,2,0];data=[9,7,7,1,7,9,3,7];moves='swap';pairs=[[2,3,5],[2,3,5],[1,2,2],\
    [1,0,2],[3,2,1],[3,1,1000],[0,1]];cycles=0|energy 26 data 26 smooth 0;labels 0 0 0 0;\n\
    moves='swap';sites=6;data=[0,0,1,0,1,1,1,1,1,0,1,1];cycles=1000;start=[0,0,0,0,0,1];smooth=[2,2,1,1];\
    labels=2;pairs=[[4,1,3]]|energy 6 data 3 smooth 3;labels 0 1 0 0 1 0;\n\
    smooth=[0,4001,1,10000,4001,0,1,10000,1,1,0,9922,10000,10000,9922,0];pairs=[[0,1,0],[0,1,0],[1,0],\
    [1,0,5],[0,2,1],[2,1]];cycles=2;sites=3;start=[1,0,0];data=[0,9,0,4,3,3,1,3,7,8,0,2];labels=4|\
    energy 1 data 1 smooth 0;labels 2 2 2;\n\
    start=[3,1,0];trunc=4;data=[5,0,5,0,4,2,9,3,4,2,7,9];moves='expansion';labels=4;cycles=2;sites=3;\
    pairs=[[0,1,2],[1,0,7],[0,2,1],[1,2,0],[2,0,1],[1,2,0],[2,1,7]];smooth='quadratic'|\
    energy 4 data 4 smooth 0;labels 1 1 1;\n\
    moves='swap';start=[0,0,0,1,0,0,0];data=[10000000,10000000,1,0,1,1,1,0,0,10000000,0,0,716322,1,1,0,0,\
    0,0,1,0,1,10000000,0,1,1,10000000,10000000];cycles=1;smooth=[0,0,1,2876,0,0,1,0,1,1,0,1,2876,0,1,0];\
    sites=7;labels=4;pairs=[[0,2]]|energy 1 data 1 smooth 0;labels 3 3 3 3 0 0 0;\n\
    data=[0,0,1,0,10000000,2332774,378756,10000000,0,1919469,1,1,1,0,0,1,0,1,10000000,1,2851048,1,1799376,\
    10000000];sites=6;moves='swap';cycles=2;trunc=8;pairs=[[5,4,1],[1,5,1],[3,4,2],[0,4,7],[4,2,1],\
    [3,5,3]];labels=4|energy 378760 data 378758 smooth 2;labels 1 2 0 1 1 1;\n\
    moves='expansion';cycles=2;sites=4;start=[2,0,0,0];trunc=4;smooth='potts';pairs=[[3,1,1],[1,2],\
    [3,1,0]];data=[6,4,4,4,7,1,5,4,1,7,5,6,0,4,7,3];labels=4|energy 8 data 6 smooth 2;labels 2 1 0 0;\n\
    moves='swap';pairs=[[1,0],[0,1],[0,1],[1,0],[1,0,1]];labels=4;data=[6,8,4,0,4,6,7,5];cycles=2;sites=2;\
    start=[0,3];smooth=[0,0,3,1,0,4,4,1,0,5,4,3,5,0,0,0]|refused 24 pair 0 alpha 0 beta 1;\n\
    start=[1,1,0,1,0];cycles=1;pairs=[[4,1],[2,3],[2,3,5],[1,4,1],[2,3],[2,0,1]];data=[3,3,2,6,9,8,2,7,4,\
    8];sites=5;smooth=[0,5,0,3];labels=2|energy 19 data 19 smooth 0;labels 0 0 1 0 0;\n\
    cycles=3;start=[0,0,0,0,0,3];data=[3,1,9,0,2,9,8,3,7,8,2,8,8,1,3,2,0,3,4,3,8,3,7,2];trunc=2;labels=4;\
    sites=6;smooth='quadratic';pairs=[[4,0,1],[0,3]]|energy 9 data 8 smooth 1;labels 1 0 2 1 0 3;\n\
    data=[0,0,1,1,1,1,0,1,0,1,1,1,1,0,1,0,0,1,0,1,0,1,0,0];start=[0,1,0,0,0,2];labels=4;cycles=4;sites=6;\
    moves='expansion';smooth='potts';trunc=5|energy 0 data 0 smooth 0;labels 0 2 0 1 0 2;\n\
    labels=4;pairs=[[0,1,5],[0,6]];moves='swap';start=[0,0,3,1,1,0,0];data=[6644051,1,10000000,10000000,0,\
    1,10000000,1,1,2716292,1928470,10000000,30246,0,0,0,10000000,10000000,1,0,10000000,6676837,4472795,1,\
    10000000,0,10000000,10000000];cycles=3;sites=7;smooth=[0,3,3,0,3,0,1,3,3,1,0,3,0,3,3,0]|\
    energy 4 data 4 smooth 0;labels 1 1 0 1 3 3 1;\n\
    labels=2;sites=5;smooth='linear';trunc=6;moves='swap';cycles=0;pairs=[[1,3,7]];start=[0,0,0,0,0];\
    data=[7,3,8,2,6,7,3,6,8,4]|energy 32 data 32 smooth 0;labels 0 0 0 0 0;\n\
    sites=2;data=[1,3,3,3,0,2];pairs=[[1,0,1000],[0,1,1000],[0,1,2],[1,0],[0,1,2],[0,1]];start=[0,0];\
    labels=3;smooth='linear';moves='swap';trunc=6;cycles=100|energy 3 data 3 smooth 0;labels 1 1;\n\
    cycles=1;sites=5;smooth=[4,2,4,3,1,5,5,1,4];data=[2,0,1,2,0,3,2,1,3,0,2,3,1,0,0];moves='expansion';\
    pairs=[[0,1,5],[2,0,7],[0,3],[3,4,3],[0,3,0],[4,3,3],[4,3,3]];labels=3;start=[0,2,0,0,2]|\
    energy 25 data 3 smooth 22;labels 1 1 1 1 1;\n\
    data=[2,6,7,0,0,3,6,6,4,7];pairs=[[0,1,0],[3,2],[2,3],[4,3,3],[3,2],[4,2,1]];start=[0,0,0,0,0];\
    sites=5;cycles=2;moves='swap';labels=2;smooth=[2,0,1,2]|refused 24 pair 1 alpha 0 beta 1;\n\
    sites=4;cycles=3;pairs=[[1,0,1],[2,3,0],[2,1],[2,3,3],[1,0],[3,2,1000],[2,0,2]];smooth=[0,2,2,0];\
    labels=2;data=[10000000,1,8086064,0,1,10000000,1234660,10000000];start=[0,0,1,0]|\
    energy 1234668 data 1234662 smooth 6;labels 1 1 0 0;\n\
    trunc=6;sites=3;smooth='quadratic';cycles=0;start=[0,1,0];labels=2;moves='swap';data=[5,0,9,5,6,2]|\
    energy 16 data 16 smooth 0;labels 0 1 0;\n\
    cycles=2;sites=2;pairs=[[0,1,1],[0,1,1],[0,1],[0,1,5],[1,0],[1,0,2],[0,1,5]];moves='expansion';\
    labels=4;smooth='linear';trunc=8;data=[1,0,1,1,0,1,1,0]|energy 1 data 1 smooth 0;labels 0 0;\n\
    data=[9994983,1,10000000,1,1,7785317,3319283,10000000,5609479,1,0,1,0,3221084,0,10000000,10000000,0,1,\
    9848576,7982000,10000000,0,7781871,9398717,4965959,10000000,10000000];smooth='linear';labels=4;\
    sites=7;pairs=[[3,6,2]];trunc=9;cycles=1000|energy 4965963 data 4965961 smooth 2;labels 1 0 2 0 1 2 1;\n\
    moves='swap';labels=3;pairs=[[4,2,5],[2,4,5],[2,4,5]];cycles=2;start=[2,1,0,2,0];smooth=[0,1,3,1,0,5,\
    3,5,0];sites=5;data=[1,3,1,0,1,0,3,1,3,1,2,0,0,1,3]|energy 3 data 3 smooth 0;labels 2 0 1 2 1;\n\
    smooth=[2,4,0,4,2,2,3,0,5];labels=3;pairs=[[2,5,7],[1,5,5],[2,5],[4,5,0],[1,0],[1,4,7],[1,5,2]];\
    start=[0,0,0,0,0,0];data=[3,0,6,2,2,5,0,2,2,6,2,4,9,1,8,1,1,4];sites=6;cycles=0;moves='swap'|\
    energy 67 data 21 smooth 46;labels 0 0 0 0 0 0;\n\
    pairs=[[6,5,7],[1,6],[5,6,7],[6,5,7],[3,4,0],[5,6],[5,6,7]];sites=7;moves='swap';labels=3;start=[0,0,\
    0,0,0,0,0];data=[1,3,3,1,3,3,3,2,3,1,0,2,2,3,3,0,1,3,1,2,2];smooth=[0,2,1,2,0,1,1,1,0];cycles=1000|\
    energy 7 data 7 smooth 0;labels 0 0 1 1 0 0 0;\n\
    moves='swap';sites=3;data=[0,10000000,10000000,1,0,10000000];cycles=100;start=[0,1,0];smooth='potts';\
    trunc=4;pairs=[[0,1,3],[1,0,3],[2,1,2],[0,2,1],[0,1,3],[1,0,3],[1,0]];labels=2|\
    energy 16 data 1 smooth 15;labels 0 1 0;\n\
    labels=3;sites=7;pairs=[[1,0,1000],[4,1],[4,1],[0,4],[2,3,0]];data=[7504003,1,1,10000000,1,984205,1,\
    5790137,10000000,10000000,0,1,10000000,1,10000000,10000000,10000000,9502334,10000000,0,6269496];\
    trunc=3;cycles=100;start=[0,1,2,0,0,0,0];smooth='linear'|energy 9502338 data 9502338 smooth 0;\
    labels 1 1 0 1 1 2 1;\n\
    labels=4;data=[3,1,0,3,1,0,0,1];cycles=1000;moves='swap';pairs=[[0,1,1],[1,0],[1,0,1000],[1,0],\
    [1,0,5],[1,0],[0,1,1]];sites=2;smooth='linear';trunc=6|energy 0 data 0 smooth 0;labels 2 2;\n\
    moves='swap';cycles=0;data=[6,0,7,1,3,1,8,0,7,2,2,1,3,5,9,9,3,1,3,0];sites=5;labels=4;start=[2,0,0,2,\
    0];pairs=[[0,4,2],[0,4,2],[4,3,0],[0,3],[3,1]];smooth=[0,1,1,2,1,0,2,2,1,2,0,2,2,2,2,0]|\
    energy 34 data 29 smooth 5;labels 2 0 0 2 0;\n\
    pairs=[[0,1,2]];data=[1,0,1,0,10000000,0];labels=3;sites=2;smooth=[4,4,5,0,0,4,5,3,2];cycles=1|\
    energy 0 data 0 smooth 0;labels 1 0;\n\
    labels=4;smooth='quadratic';trunc=4;cycles=1;pairs=[[0,3],[0,3],[1,3,2],[3,1,1],[3,2,5],[1,3,2]];\
    sites=4;data=[0,0,1471,728331,1,10000000,10000000,0,0,354619,0,10000000,10000000,1,0,3329788];\
    start=[0,2,0,1]|energy 12 data 2 smooth 10;labels 1 0 0 1;\n\
    moves='swap';sites=4;cycles=0;pairs=[[2,3,5],[1,2,3],[0,1],[3,0,7],[1,0,1],[0,3,0],[2,3,5]];start=[2,\
    0,0,0];smooth=[0,1,3,4,1,0,1,0,3,1,0,5,4,0,5,0];labels=4;data=[0,10000000,1,10000000,7044365,0,1,\
    4784180,1,5018689,7578664,1,1,0,1,0]|energy 7044395 data 7044368 smooth 27;labels 2 0 0 0;\n\
    data=[3,0,3,8,5,0,5,3,7,4,2,6,2,1,4,5,3,2,3,9];smooth=[0,6,4,4,6,0,4,5,4,4,0,6,4,5,6,0];cycles=2;\
    sites=5;pairs=[[0,3,2],[3,1],[0,3,2],[2,4,2],[4,3,7],[1,3,0],[1,4,1]];start=[0,1,0,0,2];labels=4|\
    energy 7 data 7 smooth 0;labels 1 1 1 1 1;\n\
    cycles=1000;sites=7;data=[2,0,0,2,3,3,0,3,0,3,3,3,0,0];pairs=[[6,0,5],[2,5],[0,5,7],[5,3]];labels=2;\
    trunc=2;start=[1,0,1,0,1,0,0];smooth='quadratic'|energy 7 data 6 smooth 1;labels 1 0 1 0 0 1 1;\n\
    start=[0,0,0,1,0];pairs=[];data=[0,4,0,7,0,8,8,7,3,0,0,1,5,2,5];sites=5;cycles=1;moves='swap';\
    labels=3;smooth='quadratic'|energy 5 data 5 smooth 0;labels 0 1 2 0 1;\n\
    start=[0,0,0,0,1,0,0];trunc=7;cycles=1;sites=7;data=[1,1,0,1,0,0,0,0,0,0,1,0,1,0];moves='swap';\
    pairs=[];labels=2;smooth='quadratic'|energy 1 data 1 smooth 0;labels 0 0 0 0 0 1 1;\n\
    moves='swap';start=[0,0,0];trunc=8;labels=3;sites=3;smooth='linear';data=[0,0,3,2,0,3,2,0,2];\
    cycles=1000;pairs=[[1,2,1000],[2,0],[0,2,1],[2,0,1],[2,1,3]]|energy 0 data 0 smooth 0;labels 1 1 1;\n\
    pairs=[[1,0,2],[1,0,1],[0,1,0],[3,2,0],[0,3,0],[2,0],[2,1,0]];data=[2,0,1,1,3,2,0,2,9,9,3,4];\
    moves='expansion';start=[0,0,2,0];labels=3;trunc=7;sites=4;smooth='quadratic'|\
    energy 6 data 6 smooth 0;labels 0 0 0 1;\n\
    data=[10000000,1,6026171,1,9968547,2954783,7995158,1687371,10000000,10000000,1,0];moves='expansion';\
    start=[0,1,0,0,0,0];labels=2;cycles=4;trunc=5;smooth='linear';pairs=[[4,1],[1,2,0],[2,4],[2,4,2],\
    [5,3],[0,5,2],[1,4]];sites=6|energy 14642156 data 14642156 smooth 0;labels 1 1 1 1 1 1;\n\
    pairs=[[0,1],[0,1,0],[1,0,3],[0,1,0],[0,1,0],[1,0,5],[1,0]];sites=2;data=[8,8,3,2];cycles=1000;\
    smooth=[0,1,2,5];labels=2|refused 24 pair 0 alpha 1;\n\
    data=[3,3,8,4,6,6,0,6,4,1,1,5,6,6,0];smooth='quadratic';cycles=1000;sites=5;pairs=[[1,4],[1,3,5]];\
    trunc=8;start=[0,0,0,0,0];labels=3;moves='swap'|energy 11 data 10 smooth 1;labels 0 1 0 1 2;\n\
    moves='swap';labels=2;data=[0,1,0,0,0,1,0,1,0,0,1,1,0,0];pairs=[[6,1,5],[0,6],[6,4],[6,3,5],[2,0,3],\
    [4,6,1000],[4,1,5]];sites=7;smooth=[0,5139,5139,0];cycles=0|energy 1 data 1 smooth 0;\
    labels 0 0 0 0 0 0 0;\n\
    data=[1,5,4,9,2,1,0,7,3,8,1,2,6,0,0,6,5,9,0,8];pairs=[[2,1],[2,1],[2,0,5],[2,3,2],[2,1,1],[0,4,0],\
    [3,2,7]];trunc=2;start=[3,2,0,3,3];labels=4;sites=5;cycles=4;moves='swap'|energy 5 data 5 smooth 0;\
    labels 2 2 2 2 2;\n\
    cycles=0;smooth=[0,2,2,2,0,2,2,2,0];start=[0,1,2];pairs=[[2,0,5],[0,2,0]];labels=3;sites=3;\
    data=[9257896,1,10000000,10000000,0,0,5388834,1,1]|energy 9257907 data 9257897 smooth 10;labels 0 1 2;\n\
    cycles=4;pairs=[[2,1,5],[2,1,1000],[2,1,5],[0,2,0],[2,0],[2,1],[0,1,5]];moves='swap';start=[0,0,0];\
    sites=3;labels=2;smooth=[3,5,5,1];data=[0,2,0,0,2,3]|energy 1022 data 5 smooth 1017;labels 1 1 1;\n\
    data=[1,3,0,1,2,3,3,3,0,0,3,1,0,0,3,0,3,2,3,3];trunc=8;sites=5;cycles=1;pairs=[[1,2],[2,1],[1,0,2]];\
    labels=4;smooth='quadratic'|energy 5 data 5 smooth 0;labels 0 0 0 0 1;\n\
    pairs=[[5,4,3],[0,3],[2,5,1],[3,2,5],[1,3],[0,3,5],[4,0,2]];data=[1,10000000,1,2800054,0,1,0,10000000,\
    0,10000000,1896887,10000000,10000000,10000000,10000000,1,0,5893194,1,5617544,0,0,2868438,1];start=[0,\
    3,0,0,0,0];cycles=3;labels=4;sites=6;smooth=[0,4,5,4,4,0,4,7,5,4,0,8,4,7,8,0]|\
    energy 50 data 2 smooth 48;labels 0 0 0 3 0 0;\n\
    pairs=[];data=[8,2,6,8,2,0,1,9,6,1];labels=2;moves='swap';sites=5;trunc=1;cycles=0;start=[0,0,0,0,0]|\
    energy 23 data 23 smooth 0;labels 0 0 0 0 0;\n\
    sites=3;trunc=8;cycles=100;labels=4;smooth='linear';data=[0,0,3,1,1,1,1,0,3,2,3,1];moves='swap';\
    start=[0,3,2];pairs=[[0,1],[0,2,5],[0,2,3],[1,0],[2,0,2],[2,0],[0,1]]|energy 2 data 2 smooth 0;\
    labels 3 3 3;\n\
    moves='swap';pairs=[[0,5,3],[0,5,2],[0,3],[3,1,1000],[0,2],[3,5,5],[2,5,1]];data=[0,3,0,1,3,1,3,1,2,0,\
    3,0,1,1,3,1,2,1];start=[0,2,0,0,2,1];cycles=2;labels=3;smooth=[0,0,4,0,0,5,4,5,0];sites=6|\
    energy 4 data 4 smooth 0;labels 0 0 1 0 0 0;\n\
    moves='swap';cycles=4;start=[0,0];sites=2;smooth='quadratic';trunc=5;data=[0,9,0,3];pairs=[[1,0,1],\
    [1,0,2],[1,0]];labels=2|energy 0 data 0 smooth 0;labels 0 0;\n\
    pairs=[[4,0,2],[2,4,5],[0,4,2],[1,6],[1,3,5],[2,4,5],[0,4,2]];cycles=1;start=[1,1,0,0,0,0,1];\
    smooth='quadratic';trunc=9;moves='swap';data=[1,3,1,0,1,3,3,2,0,1,0,1,3,0];labels=2;sites=7|\
    energy 4 data 4 smooth 0;labels 0 1 0 1 0 0 1;\n\
    trunc=9;start=[0,0,0,0,0,0];labels=4;pairs=[[4,3],[3,4,1],[3,5,2],[4,3],[3,2,1],[1,4,5],[5,4]];\
    sites=6;cycles=1000;smooth='potts';data=[1,0,1,1,1,1,1,1,1,0,1,0,0,0,1,1,1,1,1,1,1,1,0,0]|\
    energy 3 data 3 smooth 0;labels 1 1 1 1 1 1;\n\
    sites=4;moves='expansion';start=[0,0,1,0];pairs=[[3,1,0],[2,1,3],[2,3,2],[0,2,2],[0,2,2]];cycles=4;\
    labels=3;data=[0,0,0,0,0,0,1,0,1,1,1,0];smooth=[0,1,0,1,0,2,0,2,0]|energy 1 data 1 smooth 0;\
    labels 1 1 1 1;\n\
    smooth=[0,1,4,3,2,3,2,5,1,1,2,5,2,4,3,3];moves='swap';cycles=1;pairs=[[3,2,5],[2,3],[1,2,1],[3,1],\
    [1,0],[0,3,2],[2,3,5]];start=[1,2,0,0];data=[9,3,7,6,3,4,5,9,6,8,0,5,8,8,1,9];sites=4;labels=4|\
    energy 25 data 20 smooth 5;labels 1 0 0 0;\n\
    labels=3;start=[1,0,0,0];sites=4;data=[3507564,0,10000000,7178657,0,1,1,1,10000000,0,0,975114];\
    moves='swap';pairs=[[1,3,7]];smooth='linear';trunc=4;cycles=3|energy 1 data 1 smooth 0;labels 1 1 0 1;\n\
    smooth='quadratic';start=[0,0,0,0,0,0,2];labels=3;data=[6,5,6,7,3,6,6,3,9,9,2,0,6,5,9,2,5,5,7,2,1];\
    cycles=0;sites=7;trunc=6|energy 37 data 37 smooth 0;labels 0 0 0 0 0 0 2;\n\
    sites=5;labels=3;cycles=100;pairs=[[4,1,2],[2,4,2],[1,3,0],[3,0],[0,1],[4,3,1000],[3,1]];start=[2,2,2,\
    0,0];smooth=[0,1,1,1,0,1,1,1,0];data=[1,0,0,0,0,1,1,0,1,1,0,1,1,1,0]|energy 1 data 1 smooth 0;\
    labels 1 1 1 1 1;\n\
    cycles=1;data=[0,7510767,10000000,1119535,0,0,10000000,1,0];start=[0,2,2];smooth='quadratic';trunc=9;\
    sites=3;labels=3;moves='swap';pairs=[[1,0,2],[0,1,2],[0,1,2],[1,0],[1,0,2],[1,0],[1,0]]|\
    energy 11 data 0 smooth 11;labels 0 1 2;\n\
    cycles=2;labels=3;pairs=[[1,0,2],[1,0,1000],[1,0],[0,1,1000],[0,1]];moves='swap';data=[2,1,8,1,3,3];\
    sites=2;smooth=[0,2,1,2,0,2,1,2,0];start=[1,2]|energy 3 data 3 smooth 0;labels 0 0;\n\
    labels=4;sites=6;pairs=[[0,4],[4,1],[3,4,3],[2,3,1],[4,1,2],[3,2,3],[2,3]];trunc=5;start=[0,1,0,0,0,\
    2];data=[3,9,9,9,4,0,8,6,4,9,1,5,8,6,2,0,8,8,4,3,9,7,2,1];smooth='linear';cycles=1|\
    energy 16 data 11 smooth 5;labels 0 1 2 2 2 3;\n\
    pairs=[];cycles=4;data=[9,7,6,7,1,7,5,4,4,8,8,6,8,2,5,5,0,9,6,9,9,2,7,1,8,2,4,8];moves='expansion';\
    sites=7;smooth='linear';trunc=1;start=[0,0,0,0,0,0,0];labels=4|energy 16 data 16 smooth 0;\
    labels 2 0 0 1 0 3 1;\n\
    trunc=9;data=[3,3,2,1,0,3];pairs=[[1,0,1],[1,2,0],[2,1],[0,1,2],[1,2,0],[0,1],[0,1,0]];sites=3;\
    labels=2;cycles=3;smooth='quadratic'|energy 5 data 5 smooth 0;labels 0 0 0;\n\
    moves='expansion';cycles=1;data=[2,3,1,0,3,3,1,2,3,1,2,3,3,3,0,1,1,3,1,0,0,0,2,2];smooth='linear';\
    start=[0,0,0,0,0,0];labels=4;trunc=6;sites=6;pairs=[[5,3,2],[3,5,2],[3,5,1],[5,3,2],[0,3,1],[4,3,2],\
    [2,3]]|energy 7 data 6 smooth 1;labels 2 2 1 2 2 2;\n\
    data=[3,2,1,0,1,0,2,1,3,0,0,0,0,3,2];moves='swap';sites=5;start=[0,0,0,0,1];smooth=[0,3,3,3,0,3,3,3,\
    0];cycles=3;pairs=[[0,1],[3,1,2],[4,0,1],[3,4],[3,4],[4,2,1000],[2,3,3]];labels=3|\
    energy 5 data 5 smooth 0;labels 0 0 0 0 0;\n\
    trunc=5;data=[0,1,1,0,0,1];start=[1,1,1];cycles=100;smooth='linear';moves='expansion';labels=2;\
    pairs=[[2,1],[1,2]];sites=3|energy 1 data 1 smooth 0;labels 0 1 1;\n\
    moves='swap';pairs=[[4,3,1],[3,1,5],[0,4],[3,1,1]];start=[0,0,0,0,0];labels=2;sites=5;cycles=1000;\
    data=[3446184,1,0,10000000,1,0,1,1,8205273,2274755];smooth=[4,4,4,4]|\
    energy 2274789 data 2274757 smooth 32;labels 1 0 1 0 1;\n\
    data=[5,9,3,0,7,6,3,8,7,3,8,8,5,7,7,6,3,0,4,5];pairs=[[2,3,7],[1,3,1],[1,3],[2,3,7],[4,3,1],\
    [3,0,1000],[0,4,3]];labels=4;sites=5;cycles=1;trunc=5;start=[0,0,0,0,0];moves='expansion';\
    smooth='quadratic'|energy 24 data 22 smooth 2;labels 1 2 1 1 1;\n\
    labels=2;pairs=[];sites=4;moves='swap';smooth=[1,5,3,0];data=[0,1,1,1,1,1,0,0];cycles=1000|\
    energy 2 data 2 smooth 0;labels 0 0 0 0;\n\
    start=[0,2];sites=2;smooth=[2,2,1,2,0,5,5,1,2];labels=3;pairs=[[1,0],[0,1,1],[0,1,2]];data=[7,6,8,4,6,\
    5];cycles=2|energy 12 data 12 smooth 0;labels 1 1;\n\
    trunc=1;sites=4;moves='expansion';start=[3,3,0,0];data=[1,3,6,0,1,0,3,6,9,4,7,4,3,0,7,5];cycles=0;\
    pairs=[[1,0],[3,0,3],[2,0,3],[3,0,3],[3,0,5],[2,0,3],[3,2]];labels=4|energy 35 data 18 smooth 17;\
    labels 3 3 0 0;\n\
    smooth='linear';moves='expansion';labels=3;data=[8,0,7,4,5,4,2,2,5];cycles=1;start=[0,2,1];trunc=3;\
    sites=3;pairs=[[1,0,2],[0,1,3],[0,2,0]]|energy 7 data 7 smooth 0;labels 1 1 1;\n\
    smooth=[5,0,5,0,3,2,2,3,1,2,0,2,5,0,4,3];cycles=1;start=[0,0,1,0,0,0];data=[0,1,3,1,1,0,0,1,0,0,3,3,3,\
    1,3,1,0,3,3,1,1,2,2,3];labels=4;sites=6;pairs=[[2,0],[3,0,2],[3,0,2]];moves='expansion'|\
    refused 24 pair 1 alpha 1;\n\
    trunc=5;labels=4;pairs=[[1,0,0],[4,1],[0,1,7],[2,3]];start=[0,0,2,0,2];moves='swap';sites=5;\
    smooth='quadratic';data=[9,5,8,7,1,5,9,7,7,6,9,6,4,2,9,8,9,6,1,4];cycles=1|energy 22 data 20 smooth 2;\
    labels 1 1 0 1 2;\n\
    start=[3,2];pairs=[[1,0,3],[0,1,2],[1,0,2],[0,1],[0,1,2],[1,0],[1,0,2]];moves='expansion';cycles=1;\
    sites=2;trunc=9;data=[0,2,8,5,1,8,4,3];labels=4;smooth='quadratic'|energy 1 data 1 smooth 0;\
    labels 0 0;\n\
    trunc=3;moves='swap';cycles=1;pairs=[];data=[0,5,6,1,2,6,2,9,9,9,5,8,4,1,7,6];start=[0,0,0,0];\
    smooth='potts';labels=4;sites=4|energy 8 data 8 smooth 0;labels 0 0 2 1;\n\
    pairs=[[1,0],[0,1,1]];cycles=3;smooth=[0,0,0,0];data=[0,10000000,8877802,10000000];sites=2;labels=2|\
    energy 8877802 data 8877802 smooth 0;labels 0 0;\n\
    trunc=5;smooth='potts';cycles=1;data=[10000000,0,2619902,6712646,10000000,10000000];moves='swap';\
    sites=3;start=[0,1,1];pairs=[[0,1,5]];labels=2|energy 12619907 data 12619902 smooth 5;labels 1 0 0;\n\
    labels=4;data=[0,1,0,10000000,0,1,10000000,0,1,8091015,1,1,8517712,1,10000000,4334481,1,0,10000000,\
    7027004];sites=5;pairs=[[0,4,5],[4,2],[2,4,3],[1,2],[4,2,3],[4,0,1],[1,3,0]];cycles=100;smooth=[1,\
    10000,7407,0,1,1,10000,1,1678,5689,1,9902,1,1,7270,10000]|refused 24 pair 0 alpha 3;\n\
    moves='swap';start=[0,1,0];labels=2;sites=3;data=[8,0,8,4,5,5];cycles=1000;trunc=7;pairs=[[2,0,1],\
    [2,0,0],[2,0],[0,2],[1,0,3],[0,2,0],[2,0,0]];smooth='potts'|energy 9 data 9 smooth 0;labels 1 1 1;\n\
    start=[1,0,0,0,0,0,0];data=[4,9,2,5,3,8,9,0,6,1,5,7,1,0,0,5,9,9,4,1,0];smooth='linear';cycles=3;\
    trunc=2;pairs=[[4,0,2],[3,5,2],[2,1,3],[1,0,1]];labels=3;sites=7|energy 12 data 11 smooth 1;\
    labels 2 1 1 0 2 0 2;\n\
    cycles=3;pairs=[[3,0,0],[2,1,2]];labels=4;trunc=4;start=[0,0,0,2];smooth='potts';sites=4;data=[0,1,0,\
    1,1,0,1,0,0,1,1,1,1,0,0,1];moves='swap'|energy 1 data 1 smooth 0;labels 0 0 0 2;\n\
    labels=4;sites=4;cycles=100;smooth=[0,1,1,1,1,0,1,1,1,1,0,2,1,1,2,0];start=[1,0,0,0];data=[1,0,0,1,\
    7661305,10000000,1,4379484,5123284,1,2634171,0,10000000,2145682,2093403,0]|energy 1 data 1 smooth 0;\
    labels 1 2 3 3;\n\
    moves='swap';sites=6;labels=4;data=[0,1,1,0,0,1,1,0,1,0,1,1,0,0,0,0,1,0,0,0,0,1,1,1];cycles=1;\
    start=[2,0,3,0,0,0];pairs=[[2,4,2]];smooth=[0,1,1,1,1,0,1,1,1,1,0,1,1,1,1,0]|energy 0 data 0 smooth 0;\
    labels 0 0 1 0 1 0;\n\
    cycles=0;data=[0,1,0,0,1,0,0,0,1,1,0,1];trunc=1;moves='swap';pairs=[[5,4,1],[5,3,2]];sites=6;labels=2|\
    energy 2 data 2 smooth 0;labels 0 0 0 0 0 0;\n\
    moves='swap';trunc=2;sites=3;cycles=100;labels=3;data=[0,1,0,1,0,0,0,0,1];smooth='quadratic';pairs=[]|\
    energy 0 data 0 smooth 0;labels 0 1 0;\n\
    data=[2,2,2,2,3,2,3,3,2,2,3,1];sites=6;trunc=2;smooth='linear';pairs=[[0,3,1],[5,4,2],[3,0]];\
    moves='swap';labels=2;cycles=3|energy 12 data 12 smooth 0;labels 0 0 1 0 1 1;\n\
    data=[0,0,0,0,0,0,0,0,1,1,1,0,1,1,1,0,1,1,0,1,0,1,1,0,1,0,0,0];smooth=[0,2,1,0,2,0,2,2,1,2,0,1,0,2,1,\
    0];start=[0,2,0,0,0,0,0];cycles=1;pairs=[[2,3],[5,1,5],[4,5,7],[5,4,7],[2,3,1],[6,3,7],[6,4,2]];\
    sites=7;moves='swap';labels=4|energy 1 data 1 smooth 0;labels 0 3 3 3 3 3 3;\n\
    moves='expansion';pairs=[[1,2,5],[4,1]];cycles=1;labels=4;data=[3,1,8,5,0,5,1,8,5,9,0,5,5,4,1,5,8,9,3,\
    4];smooth=[0,5,5,3,5,0,5,5,5,5,0,4,3,5,4,0];start=[2,0,0,0,0];sites=5|energy 6 data 6 smooth 0;\
    labels 1 2 2 2 2;\n\
    smooth=[0,2,2,2,2,0,2,1,2,2,0,2,2,1,2,0];data=[3,3,1,6,3,9,8,4,3,3,6,1,0,4,0,6,8,5,2,0,9,9,4,1,6,0,5,\
    8];sites=7;pairs=[[2,0,1000],[0,6,2],[2,5,7],[1,3,3],[0,4,0],[1,5,2],[5,1,2]];moves='expansion';\
    labels=4;start=[0,0,0,0,0,0,0]|energy 20 data 12 smooth 8;labels 3 3 3 0 3 3 1;\n\
    start=[0,0,3,0,0];data=[0,9,0,6,8,5,1,9,7,6,9,6,7,4,5,2,6,0,4,1];labels=4;sites=5;pairs=[[3,1,2],\
    [1,3,2],[0,3],[3,2],[0,2],[1,2,2],[2,4,5]];cycles=1;smooth=[0,2,1,0,0,1,1,2,0,1,2,0,0,2,1,1]|\
    refused 24 pair 0 alpha 2;\n\
    sites=5;start=[0,0,0,0,0];pairs=[[1,4,2],[4,2,2],[0,2,3],[0,2,3],[0,2,3],[1,3,0]];trunc=6;\
    smooth='quadratic';moves='expansion';labels=4;data=[10000000,1,10000000,5647859,1,0,1682869,0,1,0,\
    10000000,5586033,0,10000000,1175004,5823916,1,6577239,10000000,1]|energy 5 data 3 smooth 2;\
    labels 1 0 1 0 0;\n\
    cycles=4;start=[0,2];sites=2;labels=3;pairs=[[1,0,2]];trunc=9;smooth='linear';data=[1,0,10000000,\
    10000000,0,10000000];moves='swap'|energy 0 data 0 smooth 0;labels 1 1;\n\
    sites=6;moves='swap';pairs=[[3,2],[2,3]];trunc=7;labels=2;cycles=3;data=[1,0,0,1,1,1,0,0,0,1,0,1];\
    start=[0,0,0,0,0,0]|energy 1 data 1 smooth 0;labels 1 0 0 0 0 0;\n\
    start=[1,0,0,0];smooth='potts';trunc=2;moves='swap';cycles=1000;labels=4;data=[8,8,8,6,4,6,6,2,7,7,9,\
    5,0,0,7,2];sites=4|energy 13 data 13 smooth 0;labels 3 3 3 0;\n\
    smooth=[0,198,10000,5636];data=[2,8,2,1,3,9,6,8,6,5,4,5,1,0];moves='swap';labels=2;cycles=0;sites=7;\
    start=[0,1,0,1,0,0,1];pairs=[[6,2,2],[2,5,5],[5,1],[6,3],[3,1,3],[6,3,7],[3,6,1]]|\
    energy 87854 data 24 smooth 87830;labels 0 1 0 1 0 0 1;\n\
    cycles=1;data=[0,1,0,1,1,0,0,0];sites=2;start=[1,3];pairs=[[0,1],[0,1,7],[1,0,2],[0,1,1],[0,1,1],\
    [1,0,0],[1,0]];smooth=[1,3,4,2,1,0,0,4,2,3,2,2,0,0,1,1];labels=4|refused 24 pair 0 alpha 0;\n\
    pairs=[[1,3],[0,1,0],[3,0]];cycles=4;moves='swap';sites=4;data=[4,2,1,5,5,3,9,7];start=[1,1,0,0];\
    labels=2;smooth=[3,5,5,2]|energy 20 data 13 smooth 7;labels 1 0 1 1;\n\
    trunc=1;cycles=1;pairs=[[3,0,1]];smooth='linear';sites=4;labels=3;data=[1,0,0,0,1,1,1,0,0,1,0,0];\
    moves='swap'|energy 0 data 0 smooth 0;labels 1 0 1 1;\n\
    data=[1,1,1,1,3,3,1,3,1,0,0,1,1,1,2,0];start=[3,0,0,1];moves='swap';labels=4;pairs=[[2,1,3],[2,0,2],\
    [0,1,2],[2,3,7],[1,0,2],[1,3,5],[0,2,2]];sites=4;smooth=[1,0,0,0,1,0,0,0,0,1,1,1,0,0,1,1];cycles=3|\
    refused 24 pair 0 alpha 1 beta 3;\n\
    sites=5;trunc=9;moves='expansion';pairs=[[1,4,5],[1,3],[4,1,5],[4,3,3]];start=[1,3,2,2,1];cycles=2;\
    data=[0,3,2,1,1,2,1,1,1,2,3,2,2,1,3,1,1,0,2,0];labels=4;smooth='linear'|energy 3 data 3 smooth 0;\
    labels 0 3 0 3 3;\n\
    moves='expansion';smooth='potts';labels=2;sites=7;cycles=0;data=[1,1,1,1,1,1,0,1,1,1,0,1,0,1];trunc=1;\
    start=[0,1,1,0,0,1,0]|energy 5 data 5 smooth 0;labels 0 1 1 0 0 1 0;\n\
    start=[1,0];sites=2;labels=3;moves='expansion';pairs=[];trunc=9;data=[4,0,5,9,7,7];cycles=1000|\
    energy 7 data 7 smooth 0;labels 1 1;\n\
    smooth=[0,4526,9633,4526,0,10000,9633,10000,0];pairs=[[2,0,2],[3,0,0],[1,0],[1,0,2],[1,3,1],[1,0,2],\
    [0,3,7]];data=[4,6,2,3,4,3,9,5,8,6,3,6];moves='swap';start=[1,0,0,2];cycles=1000;labels=3;sites=4|\
    energy 18 data 18 smooth 0;labels 1 1 1 1;\n\
    data=[2,9,1,1,4,9,6,6,1,4,3,6,6,0];start=[0,0,0,1,1,0,0];labels=2;pairs=[[3,6,2]];smooth=[1,8376,1,\
    5533];cycles=1;moves='expansion';sites=7|energy 25 data 23 smooth 2;labels 0 0 0 1 0 0 0;\n\
    data=[2,5,6,9,3,6,4,2,2,5,6,0];pairs=[[0,1],[0,1,2]];moves='swap';start=[0,0,0];cycles=100;trunc=6;\
    sites=3;smooth='quadratic';labels=4|energy 5 data 5 smooth 0;labels 0 0 3;\n\
    pairs=[[6,0,2],[3,1],[3,4,2],[3,2,0],[5,2,7],[3,6],[0,6,2]];labels=2;data=[10000000,0,1,1,10000000,\
    7102226,10000000,0,0,7757304,1,7975019,0,0];cycles=4;smooth=[1,1,3,5];sites=7;start=[1,0,0,0,0,0,1]|\
    refused 24 pair 0 alpha 0;\n\
    cycles=2;labels=3;moves='swap';smooth='potts';start=[0,0,0,0,0];pairs=[[4,2,0],[3,1,2],[4,2,2],\
    [4,1,1]];data=[4,3,7,9,9,1,0,5,1,9,3,4,3,7,7];trunc=3;sites=5|energy 12 data 11 smooth 1;\
    labels 1 2 0 2 0;\n\
    sites=3;data=[9,7,1,6,0,5];smooth='linear';pairs=[[0,2],[2,0],[0,1,3],[0,1,3],[0,2,3],[0,1,5],\
    [1,0,3]];labels=2;moves='swap';start=[0,0,0];cycles=3|energy 10 data 10 smooth 0;labels 0 0 0;\n\
    sites=5;moves='swap';cycles=2;start=[0,0,0,1,0];pairs=[[0,4,2],[2,3],[0,4,2],[1,2,1000],[3,2,5],\
    [3,0,5]];smooth=[2,3,5,2,3,5,3,0,5,3,5,3,3,3,3,2];labels=4;data=[3,2,7,1,5,5,4,5,3,6,1,0,2,6,7,1,3,8,\
    1,0]|refused 24 pair 0 alpha 0 beta 1;\n\
    smooth=[4,1,5,1];cycles=4;labels=2;pairs=[[0,1,3],[0,1,3]];sites=2;data=[9,5,4,0]|\
    energy 11 data 5 smooth 6;labels 1 1;\n\
    data=[7,7,9,8,2,5,1,8,5,6,1,4,1,2,2];trunc=2;labels=3;sites=5;pairs=[[3,4,5],[4,3,5],[3,2,3],[4,2,2],\
    [3,2,3],[4,1,5],[2,3,5]];moves='swap';start=[0,0,2,1,0];cycles=1|energy 26 data 13 smooth 13;\
    labels 0 1 0 1 1;\n\
    moves='swap';labels=2;sites=7;cycles=0;trunc=4;smooth='quadratic';data=[9,9,1,1,7,0,8,2,2,0,1,7,2,1];\
    start=[0,0,0,0,0,0,0]|energy 30 data 30 smooth 0;labels 0 0 0 0 0 0 0;\n\
    sites=6;moves='expansion';smooth=[0,0,2,2,2,0,2,0,0];pairs=[[0,4,2],[4,0],[0,4,3],[0,4,3],[4,0,3],\
    [4,0,3]];cycles=0;data=[0,10000000,1,10000000,10000000,0,4683993,945965,9087810,0,0,6524941,7083591,0,\
    0,1,8983310,4282745];labels=3;start=[0,0,2,0,0,0]|energy 26171402 data 26171402 smooth 0;\
    labels 0 0 2 0 0 0;\n\
    start=[0,0,0,1,1,0];cycles=1;pairs=[[2,4],[4,2]];labels=2;data=[0,1,1,2,2,0,3,2,3,3,0,3];smooth=[0,0,\
    0,0];sites=6|energy 6 data 6 smooth 0;labels 0 0 1 1 1 0;\n\
    data=[0,1,0,1,1,0,0,0];labels=2;moves='swap';pairs=[[0,2,3]];sites=4;smooth='quadratic';cycles=1|\
    energy 1 data 1 smooth 0;labels 0 0 0 0;\n\
    labels=2;smooth=[0,2,2,0];sites=7;start=[0,0,1,0,1,0,0];data=[3,4,8,2,4,9,9,0,9,8,5,0,5,6];\
    moves='swap';cycles=0|energy 47 data 47 smooth 0;labels 0 0 1 0 1 0 0;\n\
    pairs=[[5,1,3],[1,5,3],[5,1,3],[4,3,1000],[5,4,5],[0,5,5]];labels=3;cycles=0;smooth=[4,0,1,3,0,3,4,5,\
    1];data=[3,1,1,2,2,0,3,0,3,2,1,1,2,2,3,0,3,0];sites=6;moves='expansion'|\
    energy 4088 data 12 smooth 4076;labels 0 0 0 0 0 0;\n\
    sites=5;moves='swap';smooth=[0,6,6,0];start=[0,0,0,0,0];labels=2;data=[460501,10000000,10000000,\
    9743130,10000000,10000000,1,0,0,10000000];cycles=0;pairs=[]|energy 20460502 data 20460502 smooth 0;\
    labels 0 0 0 0 0;\n\
    cycles=0;labels=4;moves='swap';smooth=[2,0,5,4,5,1,4,3,4,3,4,5,3,1,3,2];data=[0,1670500,1,9574419,1,1,\
    10000000,10000000,0,9705092,10000000,10000000,0,1882566,7644243,0,10000000,1,1,0,10000000,0,5348947,0,\
    5795385,1,0,10000000];sites=7;start=[0,1,2,0,1,0,1];pairs=[[3,2,2],[3,4,7],[3,2,1000],[3,2,2],[2,3,3],\
    [0,1,5],[5,4,5]]|energy 20005035 data 20000003 smooth 5032;labels 0 1 2 0 1 0 1;\n\
    cycles=2;sites=2;trunc=5;smooth='linear';moves='swap';labels=3;data=[0,5,4,8,4,9];pairs=[[1,0,2],\
    [0,1,5],[1,0,2],[0,1,3],[1,0,0],[0,1,1000]]|energy 8 data 8 smooth 0;labels 0 0;\n\
    sites=3;start=[1,2,2];pairs=[];data=[0,0,9594382,10000000,1,0,518520,1851294,0];smooth=[2980,1,1,\
    10000,10000,1,8618,0,960];labels=3;cycles=1;moves='expansion'|energy 0 data 0 smooth 0;labels 1 2 2;\n\
    pairs=[[6,5,5],[4,0,1],[1,2],[4,1],[1,5,0],[1,5,0],[3,4,5]];smooth=[0,1,2,2,1,0,2,1,2,2,0,2,2,1,2,0];\
    labels=4;start=[0,1,3,0,0,1,3];moves='swap';cycles=1;sites=7;data=[1,0,10000000,1,5265010,10000000,1,\
    636654,1,9634946,1,8810149,0,0,1427375,10000000,1,2814528,0,10000000,0,1,0,0,0,1,0,10000000]|\
    energy 14 data 5 smooth 9;labels 0 2 0 0 0 1 0;\n\
    data=[0,2,3,1,1,3,0,1,2,3,1,1];trunc=9;pairs=[[2,0],[2,0],[0,2,7],[0,1,1],[1,2],[0,2],[2,1]];start=[0,\
    0,0];labels=4;sites=3;smooth='quadratic'|energy 3 data 3 smooth 0;labels 0 0 0;\n\
    data=[1,1,0,1,0,1,0,1,0,1,0,1,0,1,1,1,1,1,1,1,0,0,1,1];cycles=1;pairs=[[1,0,0],[5,0,0],[0,3]];\
    smooth=[0,1,0,0,1,0,1,0,0,1,0,1,0,0,1,0];start=[0,3,0,0,0,0];labels=4;sites=6|\
    energy 1 data 1 smooth 0;labels 2 0 0 0 0 0;\n\
    smooth=[10000,5199,0,1092,0,10000,0,10000,0];start=[0,0,2,2,2,2];data=[10000000,1,8839541,1,1,772283,\
    2153507,0,1,10000000,10000000,1,0,5409785,4348209,8788237,0,1];cycles=3;sites=6;moves='swap';labels=3;\
    pairs=[[5,3,0],[5,1,2],[3,5,3],[2,3,2],[1,0,5],[1,5,2],[1,0,2]]|refused 24 pair 4 alpha 0 beta 1;\n\
    pairs=[[3,0,1],[0,1,3],[2,0,1],[3,0],[2,3,1],[1,0,3],[2,0,0]];smooth='linear';trunc=7;labels=3;\
    cycles=1;sites=4;data=[0,0,1,1,1,1,0,0,0,1,1,1];start=[0,0,0,2]|energy 2 data 2 smooth 0;\
    labels 0 0 0 0;\n\
    start=[0,0,3,0];cycles=0;data=[1,1,1,1,0,0,1,1,1,1,1,1,1,1,0,0];sites=4;labels=4;smooth='quadratic';\
    pairs=[[3,0],[3,1,5],[1,0,7],[1,3,7],[1,0,1],[3,1,3],[1,3,1]];moves='expansion'|\
    energy 3 data 3 smooth 0;labels 0 0 3 0;\n\
    sites=5;pairs=[[0,4,0],[3,0,2],[4,2],[4,0,0],[2,0,1],[2,0,1],[2,0]];data=[10000000,0,0,1,10000000,0,\
    10000000,0,0,10000000,1,1529119,309115,1956768,1];labels=3;smooth=[0,0,4,2,2,4,0,5,0];cycles=0;\
    moves='expansion'|energy 30309116 data 30309116 smooth 0;labels 0 0 0 0 0;\n\
    cycles=1;start=[0,0,0,0,0];data=[6,3,5,6,9,1,9,3,7,9];smooth='quadratic';labels=2;sites=5;\
    pairs=[[1,4],[4,2],[0,3,0],[4,2,1],[4,3,2],[1,3],[0,1,1]];trunc=1|energy 22 data 22 smooth 0;\
    labels 1 1 1 1 1;\n\
    sites=5;data=[0,1,1,1,1,9281327,1891233,10000000,10000000,1,7380402,1,10000000,0,10000000,10000000,\
    10000000,6379830,1,0];moves='swap';start=[0,0,1,0,0];pairs=[[0,4,5],[1,0],[0,1],[1,4,3],[3,0,2]];\
    smooth=[10000,0,0,7148,1,10000,1,7421,0,10000,1,1,7538,0,9156,1];cycles=0;labels=4|\
    energy 20120002 data 20000002 smooth 120000;labels 0 0 1 0 0;\n\
    labels=2;trunc=4;moves='swap';sites=7;smooth='potts';cycles=1000;data=[0,0,0,0,1,1,0,1,1,0,0,1,0,0];\
    pairs=[[5,4,1000],[3,0],[4,5,1000],[2,4],[4,0,3],[0,2,2],[1,4]]|energy 2 data 2 smooth 0;\
    labels 0 0 0 0 0 0 0;\n\
    sites=3;cycles=1;start=[0,2,2];labels=4;smooth=[0,3,4,4,3,0,5,4,4,5,0,4,4,4,4,0];pairs=[];data=[7,1,5,\
    8,7,3,5,0,7,4,9,9]|energy 5 data 5 smooth 0;labels 1 3 1;\n\
    sites=7;cycles=1;labels=4;start=[0,1,0,0,0,0,0];pairs=[[5,2,1],[2,5],[0,1,5],[0,2,2],[4,6,3],[0,1,5],\
    [0,1,5]];smooth=[0,4,4,4,4,0,5,3,4,5,0,5,4,3,5,0];data=[3,9,4,3,4,2,4,5,7,7,9,4,8,9,6,4,2,0,8,2,1,6,2,\
    3,0,3,5,3]|energy 21 data 21 smooth 0;labels 0 0 0 3 0 0 0;\n\
    sites=3;data=[3,3,1,1,2,2];labels=2;moves='expansion';trunc=1;smooth='linear';pairs=[[2,0],[0,1],\
    [1,2]]|energy 6 data 6 smooth 0;labels 0 0 0;\n\
    cycles=4;data=[8,9,4,4,1,9,5,9,3,6,9,8,2,0,8,0,0,3];pairs=[[5,0,0],[1,0],[3,5],[2,0,2],[3,0,5],[3,2],\
    [5,0,1]];start=[0,1,2,0,1,0];moves='expansion';sites=6;labels=3;smooth=[2,3,2,0,4,0,5,4,3]|\
    refused 24 pair 2 alpha 1;\n\
    start=[0,0];moves='swap';labels=3;smooth=[0,2,5,2,0,2,5,2,0];sites=2;data=[1,1,0,1,0,0];\
    pairs=[[0,1,3],[1,0,0]];cycles=1|energy 0 data 0 smooth 0;labels 2 2;\n\
    data=[0,0,0,1,1,1];sites=2;labels=3;cycles=100;moves='swap';smooth=[0,6,7,6,0,5,7,5,0];start=[0,2]|\
    energy 1 data 1 smooth 0;labels 0 2;\n\
    labels=4;trunc=4;moves='swap';smooth='quadratic';sites=6;pairs=[[2,0,2],[1,0],[2,3],[5,4,2],[3,1],\
    [2,5,2]];data=[2,6,9,9,5,8,0,7,9,1,6,9,4,3,5,6,9,8,4,1,9,1,8,3];start=[3,0,0,2,3,0];cycles=1|\
    energy 22 data 15 smooth 7;labels 0 2 1 1 1 1;\n\
    pairs=[[0,1,0],[0,1,0]];start=[0,0,0,1,0];labels=2;sites=5;smooth=[1,1,0,1];data=[1,1,0,0,1,0,1,1,1,\
    0];cycles=1;moves='expansion'|energy 2 data 2 smooth 0;labels 0 0 1 1 1;\n\
    moves='swap';data=[1,1,0,747299,1,8375425,10000000,0,1,0,0,6669817,10000000,0,1,3531054,1,0,10000000,\
    10000000];start=[3,0,0,2,0];cycles=1;sites=5;smooth=[0,3,5,3,3,0,1,3,5,1,0,1,3,3,1,0];pairs=[[0,2],\
    [2,0],[1,4,3],[0,4,2],[1,0,2],[0,4],[0,2]];labels=4|energy 12 data 3 smooth 9;labels 0 0 1 1 0;\n\
    data=[2,1,2,2,1,0,1,1,1,2,3,0,2,0,1,3,2,3,2,1,2,3,1,3];pairs=[[3,4,2],[4,3,2],[3,0,1000],[0,4],\
    [4,3,2],[5,4,3]];labels=4;smooth='linear';trunc=7;start=[0,0,0,0,0,0];moves='swap';cycles=1;sites=6|\
    energy 6 data 6 smooth 0;labels 2 1 3 2 2 2;\n\
    start=[1,0,0];sites=3;cycles=2;labels=2;smooth='potts';pairs=[[1,2,5],[0,2,1],[1,2,5],[2,0,1],\
    [1,2,3]];data=[5,2,3,8,5,3];trunc=6|energy 12 data 10 smooth 2;labels 1 0 0;\n\
    smooth=[3,0,0,4];moves='expansion';pairs=[[0,1],[2,3],[1,0,2],[1,2],[2,0]];cycles=4;data=[2,3,5,1,4,1,\
    4,1];sites=4;start=[1,0,0,0];labels=2|refused 24 pair 1 alpha 1;\n\
    start=[0,1,3,2,0,2,0];trunc=7;labels=4;cycles=1;pairs=[[2,1,0],[5,3,5],[2,1,0],[2,6],[0,3],[1,4]];\
    sites=7;moves='swap';data=[0,1,0,1,1,1,1,0,0,1,0,1,1,1,1,0,1,0,0,1,1,0,0,0,0,0,0,0];\
    smooth='quadratic'|energy 3 data 2 smooth 1;labels 2 1 0 2 1 2 1;\n\
    moves='expansion';sites=6;cycles=1;trunc=7;smooth='quadratic';labels=4;pairs=[[1,3,1],[1,3],[1,3],\
    [5,2,2],[0,1,1],[2,5,2],[2,5,2]];data=[1,0,1,1,0,0,1,1,0,0,0,1,1,0,1,0,0,1,0,0,0,1,0,1];start=[0,0,0,\
    0,0,0]|energy 0 data 0 smooth 0;labels 1 1 0 1 0 0;\n\
    labels=3;cycles=0;smooth='linear';pairs=[[2,0,2],[3,0,2],[2,0,1],[3,2,2]];sites=4;data=[0,0,1,1,1,0,0,\
    1,0,1,1,1];moves='expansion';start=[1,0,0,0];trunc=2|energy 7 data 2 smooth 5;labels 1 0 0 0;\n\
    sites=7;pairs=[[1,0],[1,5,2],[4,5,3],[0,1,1],[0,5,0],[0,1],[2,0]];labels=2;data=[0,1,0,1,0,1,2719744,\
    3342124,10000000,7788508,10000000,1,9713825,10000000];moves='expansion';smooth=[3,1,5,4];start=[0,1,0,\
    0,0,1,1];cycles=3|refused 24 pair 1 alpha 0;\n\
    sites=7;trunc=9;moves='expansion';labels=2;data=[3,1,3,6,5,2,0,0,1,8,9,0,7,3];pairs=[[2,0,1],[2,5,5]];\
    smooth='quadratic';cycles=0;start=[1,0,0,0,1,0,0]|energy 34 data 33 smooth 1;labels 1 0 0 0 1 0 0;\n\
    start=[0,0,0,0,0];data=[9,8,3,8,0,1,8,7,0,8,7,9,7,8,8];sites=5;smooth=[0,0,0,0,7124,0,8521,1,0];\
    cycles=2;pairs=[[1,4],[2,4,1000],[3,1,7],[1,0,2],[2,1,2],[4,0],[2,1,2]];labels=3;moves='swap'|\
    refused 24 pair 0 alpha 0 beta 1;\n\
    trunc=2;pairs=[[2,0,7],[2,1,1000],[0,1]];sites=4;labels=4;data=[4,9,2,2,1,9,3,0,8,4,1,6,9,4,1,1];\
    moves='expansion';cycles=1;start=[3,3,0,0];smooth='potts'|energy 7 data 7 smooth 0;labels 2 2 2 2;\n\
    data=[9,2,0,9];sites=2;start=[0,0];pairs=[[0,1,2],[0,1,1],[0,1,2],[1,0,3],[1,0,5],[1,0,1],[1,0,5]];\
    moves='swap';trunc=4;labels=2|energy 9 data 9 smooth 0;labels 0 0;\n\
    labels=2;moves='expansion';data=[1540486,0,3003128,4874386,2114366,4278621,10000000,10000000];\
    pairs=[[1,3,1],[1,3,1],[2,3,2],[2,1,1],[1,3,7],[1,3,1],[3,2,2]];smooth=[0,0,0,10000];sites=4;start=[0,\
    0,0,1];cycles=4|refused 24 pair 3 alpha 1;\n\
    data=[7,7,9,4,8,0,6,4,3,1,7,0,2,9,6,2,8,9,5,7,6];moves='expansion';cycles=3;start=[0,0,0,0,0,2,2];\
    pairs=[[6,5,3],[1,5,3],[1,0],[0,1],[6,5],[6,5],[2,3,5]];labels=3;smooth=[1,10000,1,0,10000,4021,0,\
    10000,594];sites=7|refused 24 pair 0 alpha 0;\n\
    data=[0,8,1,8,0,9,8,3,0,4,5,1,3,9,2,8,4,5,4,4,6,7,9,6];pairs=[[5,1,0],[0,5,1],[4,3],[2,1,3],[1,4],\
    [1,3,0]];start=[0,0,0,0,0,1];smooth=[1,0,2,2,1,2,1,2,1,0,2,0,0,1,0,0];sites=6;labels=4;cycles=1000|\
    refused 24 pair 2 alpha 1;\n\
    sites=2;start=[0,0];smooth=[0,3,4,3,0,2,4,2,0];labels=3;data=[0,293192,1,0,571836,6795845]|\
    energy 0 data 0 smooth 0;labels 0 0;\n\
    pairs=[[0,1,1],[1,0,1],[1,0],[1,2,5],[0,1],[1,0,1],[1,0]];data=[1,1,0,0,0,0,0,0,1];smooth=[0,1,1,1,0,\
    2,1,2,0];cycles=3;labels=3;sites=3;moves='expansion'|energy 1 data 1 smooth 0;labels 0 0 0;\n\
    data=[5,5,4,5,6,1,9,1,4,3,7,9];pairs=[[2,1,0],[0,2,2]];start=[2,0,0];smooth=[0,4,3,4,4,0,4,3,3,4,0,3,\
    4,3,3,0];labels=4;sites=3;moves='swap';cycles=4|energy 9 data 9 smooth 0;labels 1 1 1;\n\
    sites=4;pairs=[[2,0,1],[3,2,7],[1,0,5],[0,2,1]];data=[0,0,2,2,3,1,1,2,0,0,1,2,2,1,3,1];cycles=1000;\
    trunc=9;start=[2,0,0,3];moves='swap';smooth='potts';labels=4|energy 2 data 2 smooth 0;labels 1 1 1 1;\n\
    sites=3;pairs=[[0,1,1000]];labels=2;moves='expansion';cycles=1;data=[1,1,1,10000000,4358857,10000000];\
    smooth=[0,2,2,0]|energy 4358859 data 4358859 smooth 0;labels 0 0 0;\n\
    data=[0,0,1,0,1,1,0,1,1,1,1,1];labels=3;cycles=4;start=[0,0,0,1];smooth=[0,6,5,6,0,4,5,4,0];\
    moves='swap';sites=4|energy 1 data 1 smooth 0;labels 0 0 0 1;\n\
    sites=7;data=[1,1,4,5,2,4,1,0,3,6,4,0,1,4,1,0,1,0,2,3,7,8,6,2,7,1,5,3];moves='swap';cycles=4;labels=4;\
    smooth=[0,3,2,4,3,0,2,3,2,2,0,3,4,3,3,0];pairs=[[2,5,5],[4,1,1],[4,5,1],[0,1],[3,2,2],[1,5,2],\
    [4,2,3]]|energy 10 data 7 smooth 3;labels 1 3 3 3 3 3 1;\n\
    labels=3;pairs=[[6,0,5],[4,1],[1,6],[1,0,3],[2,3,2],[0,6,5]];data=[4,2,7,0,9,8,2,2,3,2,6,7,9,7,8,8,8,\
    6,3,2,7];smooth=[0,0,4,0,3,3,0,5,3];start=[1,2,0,2,2,0,1];sites=7;moves='swap'|\
    refused 24 pair 0 alpha 0 beta 1;\n\
    labels=2;moves='expansion';cycles=4;smooth=[3,1,1,2];pairs=[[0,5],[0,5,1],[4,0,1],[0,2],[2,1,1]];\
    data=[1,4,7,3,3,0,7,4,1,1,8,0];sites=6|refused 24 pair 0 alpha 1;\n\
    sites=3;pairs=[[1,0]];data=[10000000,10000000,10000000,0,0,2567592,0,10000000,0];moves='swap';\
    smooth=[0,1,3,1,0,5,3,5,0];labels=3;cycles=1;start=[0,0,0]|energy 10000000 data 10000000 smooth 0;\
    labels 0 0 0;\n\
    labels=4;start=[0,2,2,0,2,0,0];sites=7;pairs=[[6,4,2]];moves='swap';data=[8,8,9,1,0,8,9,1,8,9,9,8,6,2,\
    0,0,3,0,7,5,6,4,8,3,2,5,4,0];cycles=1000;smooth=[0,1,1,1,1,0,1,1,1,1,0,1,1,1,1,0]|\
    energy 14 data 12 smooth 2;labels 3 0 0 2 1 3 3;\n\
    pairs=[[2,0],[2,1],[2,1,1],[2,0,2],[1,2],[4,0,0],[5,1]];cycles=4;start=[0,0,0,0,0,0];sites=6;data=[0,\
    0,10000000,1,7121272,0,0,8301692,0,1,0,6527546];labels=2;smooth=[5,2,3,3];moves='expansion'|\
    refused 24 pair 0 alpha 1;\n\
    pairs=[[1,0,1],[2,0,7],[3,2,1],[2,0],[3,0],[3,0],[0,1,1]];data=[0,0,0,1,1,0,0,1,1,1,0,0,0,1,1,0,1,0,0,\
    1];labels=4;sites=5;cycles=1;smooth=[1,0,1,10000,10000,10000,8451,10000,10000,8467,0,1001,1,10000,1,\
    10000];moves='swap'|refused 24 pair 0 alpha 0 beta 1;\n\
    cycles=100;data=[8,5,9,2,5,5,0,4,6,6,2,1];sites=3;smooth=[3,1,5,1,1,2,2,0,5,3,5,2,2,5,5,0];\
    pairs=[[2,0,2],[1,2,0]];labels=4|refused 24 pair 0 alpha 1;\n\
    smooth=[2,2,1,1,1,0,2,0,2,1,2,1,2,0,1,0];cycles=3;pairs=[[1,0,1],[1,0,2],[1,0],[1,0],[1,0,3],[1,0],\
    [0,1]];start=[3,0];labels=4;data=[9337241,552003,9054533,3201196,0,10000000,935187,10000000];sites=2|\
    refused 24 pair 6 alpha 1;\n\
    cycles=1000;labels=2;data=[2,2,6,2,4,1];smooth=[1155,0,1,2222];start=[1,0,0];pairs=[[1,2],[1,0,1],\
    [1,0],[1,2,0],[2,0,1],[0,1],[0,2]];sites=3|refused 24 pair 0 alpha 1;\n\
    pairs=[[1,0,3],[0,1,3],[1,0],[0,1,5],[1,0,0],[1,0,1],[1,0,2]];labels=4;moves='swap';smooth='linear';\
    sites=2;cycles=1000;trunc=4;data=[0,3,2,1,0,0,3,3]|energy 0 data 0 smooth 0;labels 0 0;\n\
    sites=3;start=[0,0,0];cycles=2;labels=4;smooth=[1,5,1,4,2,3,0,0,4,0,1,0,2,4,5,4];data=[0,0,0,2,1,0,3,\
    0,0,1,0,2];pairs=[[0,2,0],[1,0,3]]|energy 4 data 1 smooth 3;labels 0 0 0;\n\
    smooth=[4,0,3,2,5,3,4,4,5];moves='expansion';data=[0,0,2,0,3,2,1,2,2,1,1,2];pairs=[[2,1,2],[2,1,1000],\
    [1,0,0],[2,1,1],[0,1,2]];sites=4;labels=3;cycles=1|refused 24 pair 0 alpha 1;\n\
    start=[1,0];cycles=1;pairs=[[0,1,3],[0,1,3],[1,0],[1,0,2]];smooth=[0,0,0,2,0,0,0,2,0,0,0,0,2,2,0,0];\
    data=[1,1,1,9,3,5,4,6];labels=4;sites=2|energy 4 data 4 smooth 0;labels 1 0;\n\
    sites=4;data=[8,7,4,1,9,1,3,4,9,6,8,7];cycles=3;smooth=[0,5,5,5,0,5,5,5,0];pairs=[[2,0],[3,2,1000],\
    [3,0,2],[0,2,2]];labels=3;moves='expansion';start=[0,0,0,0]|energy 18 data 18 smooth 0;labels 0 0 0 0;\n\
    smooth=[2,2,0,2];sites=5;cycles=3;labels=2;pairs=[[2,0,3],[0,2,2],[2,3,1000],[2,0],[2,4],[2,3,2],\
    [4,0]];moves='swap';data=[9,4,3,9,8,1,9,2,7,1];start=[1,0,0,1,0]|refused 24 pair 0 alpha 0 beta 1;\n\
    data=[1,1,2431336,7575125,10000000,807326,10000000,0,370521,10000000,0,368581,1,1,1,1,10000000,0,\
    3194208,0,1];sites=7;labels=3;pairs=[[6,2],[1,6,5],[6,1,5],[5,0,2],[5,3,1],[5,3,1000]];smooth=[0,1,1,\
    1,2,1,0,1,2];start=[0,0,1,2,0,0,1]|refused 24 pair 4 alpha 1;\n\
    smooth=[10000,8466,1394,1,0,10000,0,1,1,1,1,1,2737,1,0,1];data=[2,0,2,0,0,1,2,1,1,2,2,0,2,2,0,0,1,0,0,\
    3];pairs=[[0,1,1],[3,2],[2,0],[2,0],[1,0],[0,2,1],[1,4]];sites=5;cycles=2;moves='expansion';start=[0,\
    0,0,0,3];labels=4|refused 24 pair 0 alpha 1;\n\
    labels=4;moves='swap';sites=5;start=[0,0,0,0,2];pairs=[[2,1,1000],[1,0,2],[1,4,2],[1,4,2],[1,4,2],\
    [1,4]];data=[9,4,2,6,5,0,0,9,7,9,8,8,5,6,7,4,2,0,6,4];smooth=[0,3,5,1,0,5,4,4,1,5,3,2,0,4,2,2];\
    cycles=100|refused 24 pair 0 alpha 0 beta 1;\n\
    sites=4;data=[0,0,1,1049772,8697559,8281493,10000000,1,0,10000000,3058917,1,10000000,0,10000000,\
    10000000];moves='expansion';trunc=4;labels=4;cycles=100;smooth='quadratic';pairs=[[3,0,5],[2,3,0],\
    [3,1,7],[3,1,7]]|refused 24 pair 2 alpha 2;\n\
    labels=3;sites=2;start=[0,0];cycles=4;data=[7,6,0,5,7,0];pairs=[[0,1,0],[1,0]];moves='swap';smooth=[1,\
    10000,1,0,0,0,0,3400,1]|refused 24 pair 1 alpha 0 beta 2;\n\
    smooth=[5,5,3,2,3,4,1,1,4];moves='swap';labels=3;data=[5,9,2,9,6,3,2,7,8,9,8,0,9,2,4];cycles=1;\
    pairs=[[3,1,7]];start=[0,0,0,1,0];sites=5|refused 24 pair 0 alpha 0 beta 1;\n\
    labels=3;sites=7;data=[4,6,1,7,8,7,8,9,6,3,1,1,9,6,8,6,9,8,6,2,9];smooth=[2,1,1,0,0,2,1,2,2];cycles=4;\
    start=[0,2,0,0,0,0,0];pairs=[[2,5,1000],[0,3,2],[2,1,2],[5,1,0],[5,6],[4,5],[5,6,1]];moves='swap'|\
    refused 24 pair 0 alpha 0 beta 1;\n\
    cycles=2;trunc=7;smooth='linear';moves='swap';labels=2;sites=6;data=[1,1,0,1,0,1,0,0,0,1,0,0];\
    start=[0,0,0,0,0,0];pairs=[[3,5],[5,0,3],[1,0,0]]|energy 1 data 1 smooth 0;labels 0 0 0 0 0 0;\n\
    start=[0,0,2,2,1,0,0];sites=7;smooth=[10000,0,0,4308,6666,0,0,0,10000];labels=3;cycles=2;pairs=[[3,2],\
    [4,1,3],[0,1,1],[2,0,7],[4,1,3],[0,2,7],[0,1]];data=[10000000,10000000,0,750965,1,1,0,10000000,0,1,\
    2963993,0,1,10000000,0,9550865,10000000,0,0,10000000,10000000];moves='swap'|\
    refused 24 pair 1 alpha 0 beta 1;\n\
    moves='swap';cycles=100;data=[5,9,1,6,2,7,6,4,0,6,7,5,1,4,1,2,5,7];sites=6;labels=3;smooth=[0,0,0,0,4,\
    5,4,3,0];start=[0,0,0,0,2,2];pairs=[[0,4,3],[1,4,7],[0,2,5],[2,0],[1,0,0]]|\
    refused 24 pair 2 alpha 0 beta 1;\n\
    cycles=100;labels=3;smooth=[4,5,2,0,4,5,2,2,1];data=[1,2,0,3,1,0,2,2,0,1,3,1];start=[0,0,0,0];\
    pairs=[[0,2,3],[3,0,2],[2,0,3],[0,1,3],[1,0],[2,0,3]];sites=4;moves='swap'|\
    refused 24 pair 0 alpha 0 beta 1;\n\
    sites=5;labels=4;data=[1,2,2,3,2,2,3,2,0,1,2,1,0,1,0,3,1,3,0,1];cycles=2;smooth=[2,0,1,0,2,0,1,2,1,0,\
    2,1,0,2,0,0];pairs=[[4,2,2],[1,2],[1,2],[2,0,3],[3,4,7],[3,1],[2,4,3]];moves='swap'|\
    refused 24 pair 0 alpha 1 beta 2;\n\
    smooth=[0,1,1947,1,5806,7622,9015,2305,1,0,0,0,10000,1,1,5533];pairs=[[1,0,1],[1,0],[0,1,5],[0,1,5],\
    [0,1,5],[1,0,5]];sites=2;start=[1,0];cycles=1000;moves='expansion';labels=4;data=[5,9,2,2,2,6,5,4]|\
    refused 24 pair 0 alpha 1;\n\
    start=[0,0,0,0,0,0,1];smooth=[0,2,0,0,5,0,4,3,1,0,3,4,4,2,3,5];labels=4;pairs=[[0,3,3],[6,1,2],\
    [0,5,2],[0,5,2],[0,6],[6,5,1],[0,4]];data=[0,0,0,2,2,1,1,3,0,0,3,0,3,2,1,1,1,3,1,1,2,3,2,0,2,2,1,2];\
    cycles=1;moves='swap';sites=7|refused 24 pair 0 alpha 0 beta 2;\n\
    smooth=[3,5,5,2,0,2,4,0,4];sites=5;data=[1,9,0,8,5,2,6,5,6,7,8,3,8,4,3];start=[1,2,0,0,1];cycles=2;\
    moves='expansion';pairs=[[3,4,0],[2,3,5],[2,3,5],[4,1,0],[0,3,5],[1,2],[2,0]];labels=3|\
    refused 24 pair 5 alpha 1;\n\
    sites=4;data=[0,0,4,8,9,9,6,4,4,3,1,7,9,0,0,7];moves='expansion';cycles=2;pairs=[[1,0,1],[2,3,1000],\
    [1,3,1],[0,1]];labels=4;start=[2,1,0,0];smooth=[2,2,2,0,2,2,2,1,2,0,1,0,2,2,1,0]|\
    refused 24 pair 1 alpha 2;\n\
    labels=4;moves='swap';data=[8,3,0,8,9,0,3,2,2,9,2,3,7,3,3,7,0,9,5,3,2,5,9,6,0,8,9,1];pairs=[[4,3,3],\
    [3,4,3]];start=[3,1,0,3,0,0,3];smooth='potts';cycles=4;trunc=7;sites=7|energy 11 data 11 smooth 0;\
    labels 2 1 0 0 0 0 0;\n\
    data=[1,1,1,0,1,0,0,1,0,1,0,0,0,0,0,1,1,1,1,0,1,1,1,0];labels=4;start=[0,0,2,0,0,0];pairs=[[3,2,2],\
    [0,4,7]];smooth=[3,0,5,0,3,5,0,5,4,4,1,4,1,0,1,0];cycles=1000;sites=6|refused 24 pair 0 alpha 1;\n\
    trunc=1;cycles=100;start=[0,1,2,0,0,0,2];pairs=[[5,3,3],[2,0,2],[5,3,2],[3,6,7],[0,5,2],[1,4,0],\
    [3,5,3]];data=[9,7,4,8,8,9,6,1,8,4,4,0,9,6,1,3,4,2,5,3,7,3,5,6,7,1,8,5];smooth='linear';moves='swap';\
    sites=7;labels=4|energy 21 data 17 smooth 4;labels 2 3 3 1 1 1 1;\n\
    labels=3;pairs=[[5,4,2],[3,2,0],[1,5,3],[3,4,3],[1,5],[5,0],[2,0,5]];sites=6;smooth=[1,0,2,1,0,0,2,1,\
    2];data=[1,0,1,0,0,0,0,1,0,0,0,1,1,0,0,1,0,1];cycles=2;start=[2,0,0,0,0,0]|refused 24 pair 0 alpha 2;\n\
    pairs=[[0,1],[1,0,7],[0,2]];data=[1,10000000,3795413,0,8120855,0,10000000,1,10000000,0,9874945,\
    10000000];smooth=[1,0,1,10000,10000,1,8222,1,1,1,0,9434,1,3091,10000,9985];labels=4;moves='expansion';\
    cycles=1;sites=3;start=[0,0,3]|refused 24 pair 1 alpha 2;\n\
    pairs=[[3,6,2]];labels=4;data=[9,8,5,9,6,6,4,1,2,7,3,6,1,1,4,4,7,6,3,3,0,6,6,4,9,4,6,3];cycles=3;\
    smooth=[0,1,2,0,2,2,1,0,0,1,0,2,0,0,2,1];sites=7|refused 24 pair 0 alpha 3;\n\
    start=[0,2,3,0,1];cycles=100;labels=4;smooth=[1,1,0,0,2,1,2,0,0,0,1,2,0,2,1,1];data=[1,1,1,1,1,0,0,1,\
    0,1,1,1,0,1,0,1,1,1,0,0];pairs=[[2,4,3],[3,4,5],[3,4,5],[3,4,5],[0,4,2],[3,1,2]];moves='swap';sites=5|\
    refused 24 pair 1 alpha 0 beta 2;\n\
    start=[0,0,0];smooth=[1,1,1,9,1,0,0,0,10000,1,4694,1,10000,10000,10000,3729];sites=3;cycles=4;\
    moves='expansion';data=[8,4,5,5,4,1,9,5,6,0,7,7];pairs=[[0,2,7],[1,2,2],[1,2,2],[0,1,3],[2,0,2],\
    [2,0,7]];labels=4|refused 24 pair 0 alpha 2;\n\
    cycles=1;smooth=[0,9240,1974,1,0,1,0,1592,1];data=[10000000,10000000,7968464,10000000,1,3998578,\
    2377796,1,10000000,0,2034103,1];sites=4;pairs=[[1,2],[2,3,2],[2,1,2],[2,3,2],[3,2,2],[3,1],[1,2,3]];\
    labels=3|refused 24 pair 1 alpha 2;\n\
    moves='swap';data=[5,7,6,3,1,3,4,6,4,7,0,0,5,1,4,8,4,7,7,5,1,7,4,1];sites=6;start=[3,0,3,3,0,3];\
    cycles=3;labels=4;pairs=[[3,2,1],[2,0,1],[1,3],[1,5,0],[0,4,2],[4,3,2],[0,2]];trunc=2;smooth='linear'|\
    energy 18 data 11 smooth 7;labels 3 0 3 1 3 0;\n\
    pairs=[[4,1,7],[5,2,2],[3,2]];moves='swap';start=[3,0,0,0,0,0,3];cycles=4;smooth=[0,1,2,1,1,0,1,2,2,1,\
    0,1,1,2,1,0];sites=7;data=[4,8,3,7,1,2,7,3,2,3,5,8,7,4,7,8,8,3,0,8,9,8,1,9,1,8,4,9];labels=4|\
    energy 19 data 17 smooth 2;labels 2 1 1 1 1 2 0;\n\
    labels=4;data=[1,0,1,1,0,1,0,0,0,1,0,0,1,1,0,0,0,0,1,0,0,1,0,0,1,0,0,1];sites=7;start=[2,0,2,3,1,0,1];\
    moves='expansion';smooth=[1,1,1,2,1,0,0,0,2,0,1,0,2,0,1,2];cycles=1;pairs=[[5,4,2],[5,3,5],[3,5,5],\
    [6,4,5],[0,4],[4,5,1],[5,3,5]]|refused 24 pair 0 alpha 2;\n\
    pairs=[[4,3,1],[0,3],[2,0,2],[3,1,2],[4,1],[0,3,0],[1,0,7]];data=[1,1,10000000,6972428,10000000,\
    10000000,10000000,0,1,10000000,1924016,0,1,3473824,0,10000000,10000000,0,9030525,10000000];start=[0,1,\
    0,2,1];sites=5;labels=4;smooth=[2,2,2,0,1,0,0,2,2,2,0,0,2,0,2,2];cycles=1000|\
    refused 24 pair 2 alpha 3;\n\
    data=[2,1,3,2,2,3,3,2,1,1,0,2,2,3,1,2,3,2];labels=3;sites=6;moves='swap';pairs=[[0,4,3],[4,0,3],\
    [4,0,3],[5,2,3],[3,5,5],[3,4,1],[4,0,3]];cycles=1000;smooth=[4,5,3,3,0,5,2,5,5];start=[0,0,0,2,2,1]|\
    refused 24 pair 0 alpha 0 beta 2;\n\
    cycles=3;sites=5;labels=3;start=[0,2,0,0,0];smooth=[10000,10000,1,10000,1,1,10000,3764,10000];data=[0,\
    0,0,1,1,1,1,1,0,0,1,1,0,1,0];moves='swap';pairs=[[4,1,2],[4,3],[3,0,0],[0,4,5],[4,3,1],[3,0,7]]|\
    refused 24 pair 0 alpha 1 beta 2;\n\
    start=[0,0,2];pairs=[[0,1,5],[1,0,3],[2,1],[0,1,0],[1,2,2],[0,2]];trunc=4;smooth='quadratic';\
    cycles=100;sites=3;labels=4;data=[9,5,7,9,4,7,8,2,4,6,9,7];moves='swap'|energy 17 data 17 smooth 0;\
    labels 0 0 0;\n\
    pairs=[[5,0,2],[0,4,1],[0,4],[2,5,2],[1,0],[5,4,1],[5,3,2]];data=[0,0,1,1,0,9559973,0,10000000,\
    10000000,10000000,7648975,1,3134328,1,0,9830407,0,0,0,1,1,10000000,0,1];labels=4;smooth=[1,2,2,0,2,2,\
    2,0,1,2,2,2,2,0,0,1];cycles=1;start=[0,0,0,0,0,3];sites=6|refused 24 pair 6 alpha 3;\n\
    data=[334758,10000000,1,0,10000000,10000000,1,448834,8597514,1215701,4719163,10000000,0,10000000,\
    10000000,7441456];labels=4;start=[3,0,0,2];sites=4;pairs=[[1,3,2],[3,1,2]];moves='swap';cycles=1000;\
    smooth=[5,1,1,0,1,4,3,5,5,1,4,2,5,4,3,5]|refused 24 pair 0 alpha 0 beta 2;\n\
    cycles=2;moves='expansion';start=[0,2,0,0,0];smooth='quadratic';trunc=6;data=[8,0,3,0,9,2,4,5,1,2,2,4,\
    9,3,5,3,9,5,9,0];sites=5;labels=4;pairs=[[0,2],[1,0,5],[4,1],[3,1,3],[2,3,2],[3,2,2],[2,0,5]]|\
    refused 24 pair 2 alpha 2;\n\
    labels=4;pairs=[[4,0,5],[2,5,0],[0,5,2],[0,4,7],[5,1,2],[0,2,1],[5,1,3]];sites=6;data=[0,0,0,0,1,0,0,\
    1,10000000,1,10000000,0,10000000,10000000,2056357,10000000,10000000,0,2282392,10000000,1,1,0,466944];\
    cycles=100;smooth=[0,1,1,1,1,0,2,2,1,2,0,2,1,2,2,0];start=[1,2,0,3,2,3];moves='swap'|\
    energy 2056359 data 2056359 smooth 0;labels 1 1 1 2 1 1;\n\
    data=[3930547,0,1,0,1,1,9275022,10000000,0,10000000,9939911,1];pairs=[[2,3]];sites=4;cycles=4;\
    labels=3;smooth=[0,3337,1,3337,0,1,1,1,0];start=[1,2,0,1]|refused 24 pair 0 alpha 2;\n\
    pairs=[[3,5],[1,4,1]];smooth=[0,10000,10000,3797,1,1,10000,0,8302];cycles=1;start=[0,0,0,0,0,0];\
    labels=3;sites=6;data=[1,3,0,2,1,3,2,2,0,3,0,2,2,0,0,2,1,2]|refused 24 pair 0 alpha 2;\n\
    sites=6;data=[1,5447624,0,1,0,0,2667747,9943073,6710903,0,1,0,10000000,10000000,10000000,6862835,1,\
    7434520,10000000,1,1,1,0,0];labels=4;pairs=[[4,0,0],[4,5,2],[5,4,2],[0,3,0],[4,3,0],[5,2,7],[1,5,1]];\
    smooth=[0,2,2,0,1,1,0,2,1,0,2,2,1,2,0,0];moves='swap';cycles=4;start=[3,0,0,0,0,2]|\
    refused 24 pair 5 alpha 1 beta 2;\n\
    smooth='linear';start=[3,1,0,0,0,0,3];sites=7;data=[2,0,7,3,8,3,2,8,3,2,6,7,5,2,7,6,9,3,4,9,9,0,0,8,4,\
    3,2,6];labels=4;pairs=[[3,4,2],[5,6,5],[3,6,1],[3,1,2],[2,6,2],[0,1],[5,2]];trunc=7;moves='swap'|\
    energy 13 data 13 smooth 0;labels 1 1 1 1 1 1 1;\n\
    cycles=2;sites=6;smooth=[2,2,1,1,2,1,2,0,0,1,0,1,1,0,2,2];data=[3481020,0,10000000,1,3369250,10000000,\
    0,1,0,10000000,1,8382616,1,2796116,0,1661796,1,1,1,1,1136338,9770929,5739002,0];pairs=[[3,1],[2,5,1],\
    [5,1,2],[5,1,0],[2,4,7],[2,4,7],[3,1,1]];labels=4|refused 24 pair 0 alpha 2;\n\
    start=[0,0,0,0,1];cycles=1;smooth=[0,1,0,1,0,0,0,0,0];pairs=[[0,3,2],[1,3,3],[3,4,0],[2,0,2]];\
    labels=3;data=[1,6394062,10000000,10000000,0,10000000,2382212,8418511,10000000,10000000,1,0,1,6750687,\
    10000000];sites=5|refused 24 pair 0 alpha 2;\n\
    smooth=[0,9009,0,0,0,10000,10000,7577,1,1,1,0,3855,168,8868,3355];pairs=[[1,0],[0,1,0],[0,1,2]];\
    start=[0,1,0,0];labels=4;cycles=1;moves='expansion';data=[0,10000000,0,10000000,1,0,7925842,0,9435330,\
    0,3131319,0,5376577,1,10000000,1];sites=4|refused 24 pair 0 alpha 1;\n\
    start=[0,1,0,0,0,2,0];data=[1,0,7,2,3,0,2,4,4,5,3,6,2,3,0,8,1,9,6,4,0,8,4,7,4,4,3,1];labels=4;\
    moves='swap';smooth=[1,5,1,2,4,4,3,1,5,0,1,2,2,3,1,2];sites=7;pairs=[[3,4,2],[0,2],[6,0],[3,6,2],\
    [2,4,0],[5,1,2],[6,4]]|refused 24 pair 5 alpha 1 beta 2;\n\
    sites=3;smooth=[1,1,0,1,2,0,0,0,0,1,2,2,0,2,1,2];start=[0,1,1];moves='swap';cycles=1;data=[2,3,2,1,0,\
    1,3,3,0,1,0,2];labels=4;pairs=[[0,2,2],[0,2,1],[1,2,5]]|refused 24 pair 0 alpha 1 beta 2;\n\
    sites=5;pairs=[[3,0],[3,0,3],[3,1,0],[4,0],[1,2,3],[3,1],[2,0,1000]];labels=4;smooth=[0,2,2,0,2,0,4,0,\
    2,4,0,2,0,0,2,0];cycles=3;start=[0,1,0,0,2];data=[10000000,10000000,6848092,3961998,0,10000000,\
    10000000,10000000,1,1,0,0,1,9957701,1,0,3496103,2416858,6009516,1]|refused 24 pair 3 alpha 3;\n\
    cycles=4;start=[3,0,2];data=[9864128,1,1,7935700,10000000,5344434,0,1,10000000,10000000,10000000,1];\
    trunc=4;pairs=[[0,2,7],[2,0,2]];labels=4;smooth='linear';sites=3|energy 11 data 2 smooth 9;\
    labels 2 2 3;\n\
    smooth=[0,0,0,4,3,0,4,1,0,1,2,1,5,2,3,1];start=[0,2,0,3,3,0];labels=4;moves='swap';sites=6;cycles=3;\
    data=[1,1,0,2,6,2,9,7,4,4,9,8,5,2,2,8,1,4,4,8,4,5,3,6]|energy 12 data 12 smooth 0;labels 2 1 0 1 0 2;\n\
    data=[7,2,9,3,5,8,5,5,9,6,5,7];moves='swap';pairs=[[1,0,7],[3,2]];smooth=[0,3,2,3,0,4,2,4,0];sites=4;\
    cycles=3;labels=3;start=[0,0,2,0]|energy 17 data 17 smooth 0;labels 1 1 1 1;\n\
    start=[0,1,0,1,0,0];data=[0,9,9,0,0,9,0,5,5,2,3,3];smooth=[2,4,1,5];labels=2;sites=6;\
    moves='expansion';pairs=[[5,3,0],[5,3,0],[4,3,3],[3,0,1],[1,5,5],[0,1,2]];cycles=2|\
    refused 24 pair 2 alpha 1;\n\
    start=[0,2,1,0];moves='swap';trunc=4;cycles=4;labels=3;smooth='quadratic';pairs=[[1,2,0],[1,0],\
    [0,1,5],[1,0,3],[0,3],[0,2,1]];data=[5,8,0,3,5,8,6,5,8,3,6,7];sites=4|energy 17 data 17 smooth 0;\
    labels 0 0 0 0;\n\
    pairs=[[4,2],[4,2],[4,3,3],[1,0],[3,4],[1,0],[1,3,2]];sites=5;data=[0,7,8,2,8,5,8,5,1,8,9,0,5,9,7,2,7,\
    0,9,6];labels=4;start=[1,2,2,1,0];smooth=[2,4,1,5,4,5,4,1,3,5,2,1,5,0,0,2];cycles=4;moves='swap'|\
    refused 24 pair 0 alpha 1 beta 3;\n\
    smooth=[0,1,2,0,1,0,1,2,2,1,0,1,0,2,1,0];pairs=[[0,1,1]];start=[0,0,0];data=[9,6,0,1,1,4,8,8,5,8,0,6];\
    cycles=1;labels=4;sites=3|refused 24 pair 0 alpha 3;\n\
    start=[0,0,0,0,0,2];smooth=[0,2,2,2,0,2,2,2,0];moves='swap';pairs=[[5,2,1000]];labels=3;cycles=1000;\
    data=[0,2,0,2,3,3,1,0,1,2,2,0,1,2,1,3,0,3];sites=6|energy 3 data 3 smooth 0;labels 0 0 1 2 0 1;\n\
    start=[0,0];data=[3,1,2,3,1,6];pairs=[[1,0,3],[1,0,7],[0,1,7],[0,1,0],[1,0],[1,0],[0,1,5]];labels=3;\
    sites=2;smooth=[3,3,2,3,3,0,2,1,4]|refused 24 pair 0 alpha 2;\n\
    start=[1,1,0,0];sites=4;labels=4;cycles=1000;pairs=[[1,0,1]];smooth=[5,5,4,0,4,1,5,0,1,4,5,1,1,2,5,2];\
    moves='expansion';data=[0,8,4,2,8,0,5,3,0,2,1,7,5,3,2,8]|refused 24 pair 0 alpha 2;\n\
    cycles=100;labels=4;moves='swap';start=[3,0,0,2,0,3];sites=6;smooth=[10000,6227,10000,0,1,10000,10000,\
    10000,0,1,5498,1600,1,10000,10000,10000];pairs=[];data=[10000000,8801515,1,1,0,0,10000000,2410427,0,0,\
    10000000,0,10000000,10000000,0,1926234,0,9419842,6384935,0,10000000,1,0,10000000]|\
    energy 1 data 1 smooth 0;labels 3 0 0 2 0 2;\n\
    data=[1,1,10000000,10000000,1,9128714,10000000,10000000,0,0,6590225,1206609,1,1,10000000];\
    pairs=[[1,3],[3,4,1],[2,0,2],[4,3]];sites=5;smooth=[0,0,2,0,0,1,2,1,0];labels=3|\
    refused 24 pair 2 alpha 1;\n\
    smooth='quadratic';cycles=4;data=[0,0,1,1,1,1,1,1,0,1,0,0,0,0,1,1,1,1,1,1,0,0,1,0];trunc=6;start=[2,0,\
    0,0,0,3];pairs=[[0,1,1],[5,2],[3,4,2],[0,1,7],[1,3,2],[5,0,2],[2,0,7]];labels=4;sites=6;moves='swap'|\
    energy 2 data 2 smooth 0;labels 0 0 0 0 0 0;\n\
    start=[0,0,2,0,0,0];cycles=3;moves='swap';data=[5,2,7,7,5,8,8,0,9,3,0,4,8,3,3,9,1,6];smooth=[2,0,2,1,\
    2,2,1,1,1];sites=6;labels=3|energy 11 data 11 smooth 0;labels 1 1 1 1 1 1;\n\
    smooth='quadratic';start=[0,2,0];pairs=[[2,0,3],[2,1,1000],[1,2],[2,0,3]];trunc=2;labels=3;\
    moves='swap';cycles=1000;sites=3;data=[5,7,0,0,1,7,7,9,4]|energy 11 data 11 smooth 0;labels 2 2 2;\n\
    labels=4;moves='swap';sites=5;trunc=9;pairs=[];cycles=4;data=[7,0,5,9,3,6,0,4,2,8,0,3,7,5,4,9,5,2,3,\
    1];start=[3,0,0,0,3];smooth='linear'|energy 5 data 5 smooth 0;labels 1 2 2 2 3;\n\
    pairs=[[3,4,5],[3,4,5],[4,3,5],[5,2,5],[6,2,3],[6,1,0],[0,3,1]];labels=4;start=[0,0,0,0,1,0,0];\
    smooth=[0,2,2,3,2,0,4,2,2,4,0,3,3,2,3,0];cycles=1000;sites=7;data=[0,10000000,1,0,5307458,1,10000000,\
    10000000,1,1,0,10000000,0,0,1,1,9706044,8602020,1,1,10000000,991472,0,3301724,10000000,10000000,\
    10000000,0];moves='swap'|energy 12 data 3 smooth 9;labels 3 1 2 3 3 2 3;\n\
    data=[1,0,0,1,1,1,1,1,0,0,0,0,0,0,0,1,0,0,0,0,1,0,1,1,1,0,0,0];pairs=[[5,2,7],[2,5,7],[6,3]];start=[0,\
    0,0,0,0,3,0];labels=4;trunc=9;moves='swap';sites=7|energy 1 data 1 smooth 0;labels 1 0 1 1 0 1 1;\n\
    cycles=1000;data=[0,1,0,2708355,1,8841913,1282881,5812058,0,50045,164289,1];pairs=[[2,0,3],[1,2,2],\
    [1,2,2]];start=[1,0,1,0];smooth=[0,2,1,2,0,2,2,0,2];sites=4;labels=3|energy 11 data 3 smooth 8;\
    labels 1 1 2 2;\n\
    cycles=1000;trunc=5;data=[10000000,0,2066460,1,1782774,10000000,1,0,1,10000000,10000000,6480015];\
    sites=3;labels=4;smooth='potts';moves='swap';pairs=[[0,2],[1,2,3],[2,1,3],[0,2,5],[1,0],[1,0],\
    [0,2,1]];start=[3,1,1]|energy 15 data 2 smooth 13;labels 3 3 0;\n\
    trunc=8;smooth='quadratic';moves='swap';cycles=3;pairs=[[0,1,1],[1,0],[0,1],[1,0,3],[1,0,0]];start=[3,\
    0];labels=4;data=[1,0,10000000,10000000,5525807,10000000,0,10000000];sites=2|energy 6 data 0 smooth 6;\
    labels 1 2;\n\
    smooth='quadratic';sites=3;moves='swap';cycles=100;labels=3;start=[2,0,0];data=[0,0,4487307,1,1,1,0,1,\
    0];trunc=5;pairs=[[2,0],[2,1,7],[2,0],[2,0,0],[1,2],[0,2,1],[1,0,7]]|energy 1 data 1 smooth 0;\
    labels 0 0 0;\n\
    sites=5;smooth='quadratic';cycles=3;start=[2,0,1,0,1];labels=3;pairs=[[0,3,0],[2,1,5],[2,1,5],\
    [0,1,1000]];data=[5,1,8,0,2,0,2,6,3,4,6,7,5,4,0];moves='swap';trunc=5|energy 11 data 11 smooth 0;\
    labels 0 0 0 0 2;\n\
    moves='swap';smooth=[0,1,2,2,1,0,2,2,2,2,0,2,2,2,2,0];pairs=[[0,2,1000],[0,2,1000],[0,2,1000],\
    [2,0,1000],[2,0,1000],[0,3],[0,1]];start=[0,0,0,0,0];sites=5;data=[5,9,5,7,4,2,0,9,6,1,7,2,5,9,6,0,7,\
    4,6,7];cycles=100;labels=4|energy 15 data 13 smooth 2;labels 3 2 3 3 1;\n\
    smooth='quadratic';sites=4;trunc=4;labels=4;data=[0,0,1,1,1,1,0,1,1,1,1,1,0,0,0,1];pairs=[[3,1,0],\
    [1,0,0],[2,1,2],[2,0,3],[2,3,1],[0,2],[1,0,0]];moves='swap';start=[2,0,0,0];cycles=1000|\
    energy 2 data 2 smooth 0;labels 0 0 0 0;\n\
    smooth='potts';moves='swap';sites=6;trunc=1;start=[2,0,3,0,0,3];pairs=[[0,5,3],[5,1,2],[1,3,0],\
    [5,2,3]];data=[0,1,1,0,1,0,0,1,1,1,0,0,1,1,1,1,1,1,1,0,0,0,1,1];labels=4|energy 3 data 3 smooth 0;\
    labels 0 0 0 0 3 0;\n\
    pairs=[[1,0,2],[1,0,2],[0,1]];sites=3;cycles=4;data=[9,4,4,0,3,9,7,0,8];start=[2,0,0];smooth=[0,0,2,2,\
    0,1,0,1,0];moves='swap';labels=3|energy 6 data 4 smooth 2;labels 1 0 1;\n\
    sites=6;trunc=6;data=[1,9,1,0,3,5,6,0,6,4,0,4,1,0,5,1,6,7,0,0,5,9,4,8];start=[0,0,0,0,1,3];\
    smooth='linear';labels=4;pairs=[[4,2,0],[4,2,3]];moves='swap'|energy 4 data 4 smooth 0;\
    labels 3 3 2 1 2 2;\n\
    pairs=[[1,5,1],[1,5,1],[3,5,1000],[2,1],[0,3,7],[2,0,7]];labels=4;data=[4,9,3,8,1,2,9,3,6,8,2,1,4,9,8,\
    1,2,2,9,8,0,4,9,8,9,5,3,6];sites=7;cycles=1000;smooth=[0,5,5,0,5,0,4,3,5,4,0,0,0,3,0,0];start=[0,0,0,\
    0,0,0,0]|energy 11 data 11 smooth 0;labels 2 0 3 3 0 0 2;\n\
    moves='expansion';labels=3;pairs=[[1,5,2],[6,5,2],[3,1,1000],[3,1,0]];sites=7;smooth=[0,3,1,3,0,0,1,0,\
    0];cycles=100;data=[1,2,0,1,1,3,1,0,2,1,1,3,2,3,3,1,3,0,3,1,1]|energy 5 data 5 smooth 0;\
    labels 2 1 1 1 0 2 2;\n\
    start=[0,1,0,2,3,0,0];labels=4;data=[0,0,1,1,0,1,0,0,0,1,1,0,0,0,0,1,0,1,0,1,1,0,1,0,1,1,0,0];\
    pairs=[[6,1,3],[0,5,1],[1,6,3],[2,1],[0,1,0],[6,4,5],[4,0,3]];sites=7;smooth=[0,1,1,2,1,0,1,2,1,1,0,1,\
    2,2,1,0];moves='swap'|energy 2 data 2 smooth 0;labels 0 0 0 0 0 0 0;\n\
    sites=5;labels=3;moves='swap';pairs=[[3,4],[4,2,1000],[3,1],[2,1,3],[1,3,5],[3,2,5],[1,3,0]];\
    smooth=[0,1,3,1,0,4,0,1,2];start=[2,1,1,2,0];data=[0,5,9,1,1,7,7,2,2,9,8,8,5,4,7]|\
    energy 15 data 15 smooth 0;labels 0 1 1 1 1;\n\
    data=[6,8,2,9,8,2,6,6,6,4,4,7,0,2,6,5,6,4,8,3,4,6,5,5,3,0,6,4];sites=7;smooth='linear';trunc=2;\
    labels=4;cycles=1000;pairs=[[4,5,1],[5,4]];start=[3,0,0,0,1,0,0];moves='swap'|\
    energy 16 data 16 smooth 0;labels 2 1 1 0 3 3 1;\n\
    pairs=[[0,1],[0,1,5],[0,1],[0,1,1],[1,0,3]];moves='swap';start=[0,2];sites=2;labels=3;smooth=[0,2,3,2,\
    0,2,3,2,0];data=[1,4,6,6,7,7];cycles=3|energy 7 data 7 smooth 0;labels 0 0;\n\
    data=[8,5,9,6,0,3,6,1,7,8,7,1];cycles=3;start=[0,3,0];pairs=[[2,1],[2,1],[2,1,2],[1,2],[2,1],[2,0,2],\
    [1,0,1]];sites=3;moves='swap';labels=4;trunc=2|energy 8 data 8 smooth 0;labels 3 3 3;\n\
    start=[0,0,0,2];labels=3;smooth='potts';sites=4;data=[3,3,1,3,1,1,0,3,3,0,0,2];pairs=[[1,0],[0,3,2],\
    [3,2,0],[3,1,5],[2,3,1],[0,3,2]];trunc=5;moves='swap';cycles=3|energy 5 data 4 smooth 1;\
    labels 2 2 0 2;\n\
    sites=2;data=[7,0,5,3,9,2,2,3];moves='swap';start=[2,0];labels=4;pairs=[[1,0],[0,1],[0,1,1],[1,0,2],\
    [0,1,2],[0,1,2],[0,1,0]];cycles=4;smooth=[0,0,10000,10000,0,0,8222,1,10000,8222,0,3541,10000,1,3541,\
    0]|energy 2 data 2 smooth 0;labels 1 1;\n\
    data=[9,3,8,1,3,3,9,6,9];sites=3;cycles=1000;start=[0,2,0];labels=3;smooth='quadratic';moves='swap';\
    pairs=[[1,2,0],[0,2],[0,1,2],[2,0,2],[1,2,3],[0,1,5],[1,0]];trunc=9|energy 12 data 12 smooth 0;\
    labels 1 1 1;\n\
    cycles=100;sites=7;data=[0,0,0,10000000,0,1,10000000,0,1,0,3130698,0,5510171,6757097,10000000,\
    10000000,0,0,10000000,10000000,10000000,10000000,0,5615573,1,10000000,1,0];labels=4;smooth=[0,1,1,2,1,\
    0,1,1,1,1,0,2,2,1,2,0];moves='swap';pairs=[[4,2,3]];start=[0,2,0,1,3,1,0]|\
    energy 5510171 data 5510171 smooth 0;labels 0 0 1 0 1 2 3;\n\
    smooth=[5,2,5,4,4,4,5,0,3,2,2,5,3,5,3,5];start=[0,2,0,0,3,0];sites=6;moves='swap';labels=4;data=[2,0,\
    3,9,4,3,8,9,6,1,5,6,5,2,7,7,3,3,0,9,0,5,0,5]|energy 6 data 6 smooth 0;labels 1 1 1 1 2 0;\n\
    moves='swap';smooth=[0,0,1,5,0,0,1,3,1,1,0,5,5,3,5,0];cycles=1000;data=[2,4,5,7,5,3,8,6,7,7,5,4,5,3,2,\
    1];pairs=[[3,2],[3,2,1],[3,2],[2,0,5],[2,0,5]];start=[0,0,0,3];labels=4;sites=4|\
    energy 15 data 15 smooth 0;labels 0 1 0 1;\n\
    pairs=[[0,3],[3,2],[3,4],[1,4,5],[4,0,0],[3,2,2],[4,0]];sites=6;smooth=[0,3,0,5,3,0,0,1,0,0,0,5,5,1,5,\
    0];data=[1,0,5075437,10000000,10000000,10000000,4491909,0,0,1,10000000,0,0,10000000,1,8692869,1,\
    7671092,1,2969364,7087194,10000000,6954773,0];start=[0,1,0,3,3,0];moves='swap';cycles=1000;labels=4|\
    energy 27 data 2 smooth 25;labels 0 3 0 0 0 3;\n\
    moves='swap';labels=4;data=[1,1,0,1,0,1,1,0,1,1,1,0,1,0,1,0,0,0,0,1,0,1,1,1];pairs=[[2,5],[3,0,3],\
    [5,1,2],[4,3,5],[0,3,3]];sites=6;start=[1,0,0,3,0,0];smooth='quadratic';trunc=3|\
    energy 2 data 2 smooth 0;labels 1 0 0 1 1 0;\n\
    cycles=1000;labels=4;sites=5;pairs=[[0,4,5],[1,4,0],[4,1],[1,2,2],[1,2,5],[3,4],[1,2,1]];start=[0,0,1,\
    2,0];data=[9,6,4,6,7,2,7,1,7,7,6,6,3,2,4,8,7,1,2,5];moves='swap'|energy 17 data 16 smooth 1;\
    labels 1 3 3 1 1;\n\
    moves='swap';pairs=[[1,4],[6,3],[3,6,1],[1,3,1],[4,0],[3,4,2],[2,0]];start=[0,0,0,2,0,1,0];cycles=100;\
    labels=3;data=[0,2,3,3,3,3,1,3,0,1,3,2,2,3,1,2,3,0,0,0,1];sites=7;smooth=[1,0,5,5,1,5,5,1,2]|\
    energy 14 data 10 smooth 4;labels 1 0 0 0 1 2 0;\n\
    smooth='linear';labels=4;sites=6;moves='swap';data=[1,0,1,0,1,0,0,1,0,1,0,0,1,1,1,0,0,0,1,0,1,1,0,0];\
    pairs=[[5,0,7],[4,3,0]];start=[0,0,3,2,0,3];trunc=2|energy 0 data 0 smooth 0;labels 3 1 0 3 0 3;\n\
    sites=4;pairs=[[0,1,3],[1,0,1000],[2,1,1],[3,0,3]];data=[6,7,9,9,7,5,9,7,2,8,7,9,9,1,7,2];labels=4;\
    trunc=6;smooth='linear';moves='swap';start=[1,3,0,0];cycles=1000|energy 16 data 15 smooth 1;\
    labels 1 1 0 1;\n\
    start=[0,0,0,0,0,2,0];sites=7;moves='swap';smooth=[0,2,5,2,0,5,5,5,0];pairs=[[0,5],[0,1],[5,0,1],\
    [2,1,2],[5,3,2],[6,2],[4,5,5]];labels=3;cycles=100;data=[5,7,8,3,3,1,7,9,7,5,1,1,8,1,4,0,8,7,5,3,0]|\
    energy 28 data 28 smooth 0;labels 2 2 2 2 2 2 2;\n\
    cycles=3;trunc=6;moves='swap';data=[1,0,1,1,0,0,0,1,1];labels=3;pairs=[[1,0,5],[2,0,3],[0,1,5],[1,2],\
    [1,0,5],[0,1,5],[0,1]];start=[0,1,2];sites=3;smooth='quadratic'|energy 1 data 1 smooth 0;labels 1 1 1;\n\
    labels=3;trunc=9;data=[0,4,7,5,7,9,8,9,1,3,0,6,6,3,0,5,2,0];pairs=[[5,0,5],[0,5,5],[4,1],[1,4],[2,1],\
    [3,5],[1,5,1]];smooth='linear';sites=6;start=[1,0,1,1,0,0]|energy 17 data 14 smooth 3;\
    labels 1 1 2 1 2 1;\n\
    start=[0,2,1];pairs=[[1,2],[0,1,5],[2,1],[0,2,7],[0,2,3],[1,2,1000],[1,0,5]];labels=3;moves='swap';\
    cycles=1000;trunc=5;smooth='quadratic';data=[0,3,5,6,1,3,1,9,4];sites=3|energy 7 data 7 smooth 0;\
    labels 0 0 0;\n\
    trunc=4;labels=4;cycles=4;data=[3,2,8,1,4,8,9,3,9,6,7,3,2,8,8,6,8,1,1,8,6,2,6,1,0,4,8,0];\
    smooth='quadratic';moves='swap';sites=7;pairs=[[0,1,1],[4,0,0],[0,1],[1,3,1],[3,5,1],[1,0]];start=[0,\
    3,3,0,0,0,0]|energy 16 data 15 smooth 1;labels 0 0 3 0 1 1 0;\n\
";
