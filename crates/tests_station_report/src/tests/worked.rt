//! Stations worked by hand, as field files, and what is printed of them.

use adjust_kernel::ResidualLimit;
use byte_ends::{Held, Script};
use station_book::{Limits, ResultLimits};
use station_report::Head;
use std::alloc::Global;
use std::process::Abort;
use std::test::Fail;
use test_support::{S1, TIE, TWO_PARTS};

/// Bytes that a sink has room for where no test wants less.
pub const AMPLE: usize = 4_000;

/// How many bytes the readers give at a time.
pub const STEPS: [usize; 4] = [1, 7, 64, usize::MAX];

/// The head of the report of a field file, which was told to note nothing.
pub const HEAD: Head<'static, 'static> = Head {
    path: b"field.gsi",
    notes: None,
};

/// A station of a field file, and what is printed of it where both limits of face differences are 1
/// mgon, and that of residuals is the largest.
#[derive(Clone, Copy)]
pub struct Worked {
    pub gsi: &'static [u8],
    pub name: &'static [u8],
    /// Its report up to where the section of a table stands.
    pub before: &'static [u8],
    /// Its report from there on.
    pub after: &'static [u8],
    pub rows: &'static [u8],
    /// The same with semicolons between cells, and commas in numbers.
    pub semicolon_rows: &'static [u8],
}

/// Two sets of targets A and B, each in both faces: B is 50.00003 gon from A.
pub fn s1() -> Worked {
    Worked {
        gsi: S1,
        name: b"S1",
        before: b"station_check 1.0.0: report of the sets of a station\n\
\n\
Field file            field.gsi\n\
Station               S1\n\
Sets                  2\n\
Targets               2\n\
Two-face directions   4\n\
Missing directions    0\n\
Limit of 2c           1.00 mgon\n\
Limit of 2i           1.00 mgon\n\
Limit of residuals    10.000 mgon\n\
\n\
Readings in gon, mean of both faces counted from the first row of the set,\n\
2c and 2i in mgon\n\
\n\
\x20 Set  Target               Face I    Face II         Mean        2c        2i\n\
\n\
\x20   1  A                   0.00000  200.00006     0.000000      0.06     -0.02\n\
\x20   1  B                  50.00000  250.00010    50.000020      0.10      0.00\n\
\n\
\x20   2  A                 100.00000  300.00004     0.000000      0.04      0.00\n\
\x20   2  B                 150.00004  350.00008    50.000040      0.04      0.00\n\
\n\
\x20 Mean                                                          0.06      0.00\n\
\x20 Half of the mean: collimation and index error                 0.03      0.00\n\
\x20 Spread: the greatest less the least                           0.06      0.02\n\
\n\
Zenith angles in gon, mean of both faces\n\
\n\
\x20 Set  Target               Face I    Face II         Mean\n\
\n\
\x20   1  A                 100.00000  299.99998   100.000010\n\
\x20   1  B                 100.00000  300.00000   100.000000\n\
\n\
\x20   2  A                 100.00000  300.00000   100.000000\n\
\x20   2  B                 100.00000  300.00000   100.000000\n\
\n\
Mean of the sets of each target in gon, standard deviation of the mean in mgon\n\
\n\
\x20 Target            Sets         Mean  Standard deviation\n\
\n\
\x20 A                    2   100.000005               0.005\n\
\x20 B                    2   100.000000               0.000\n\
\n\
Adjusted directions in gon, by least squares, counted from the first target\n\
\n\
\x20 Target              Direction\n\
\n\
\x20 A                    0.000000\n\
\x20 B                   50.000030\n",
        after: b"\n\
Residuals in mgon: adjusted direction less two-face direction\n\
\n\
\x20 Target      Set        1       2\n\
\n\
\x20 A                 -0.005   0.005\n\
\x20 B                  0.005  -0.005\n\
\n\
Greatest residual     -0.005 mgon, set 1, target A\n\
Degrees of freedom    1\n\
Sum of squares [vv]   0.000100 mgon^2\n\
Standard deviation    0.010 mgon, of one two-face direction\n\
Standard deviation    0.007 mgon, of each adjusted direction\n",
        rows: b"station,set,target,face one,face two,direction,2c,2i,adjusted,residual,\
         zenith one,zenith two,zenith mean\n\
S1,1,A,0.000000,200.000060,0.000030,0.06,-0.02,0.000025,-0.005,100.000000,299.999980,100.000010\n\
S1,1,B,50.000000,250.000100,50.000050,0.10,0.00,50.000055,0.005,100.000000,300.000000,100.000000\n\
S1,2,A,100.000000,300.000040,100.000020,0.04,0.00,100.000025,0.005,100.000000,300.000000,100.000000\n\
S1,2,B,150.000040,350.000080,150.000060,0.04,0.00,150.000055,-0.005,100.000000,300.000000,100.000000\n",
        semicolon_rows: b"station;set;target;face one;face two;direction;2c;2i;adjusted;residual;\
         zenith one;zenith two;zenith mean\n\
S1;1;A;0,000000;200,000060;0,000030;0,06;-0,02;0,000025;-0,005;100,000000;299,999980;100,000010\n\
S1;1;B;50,000000;250,000100;50,000050;0,10;0,00;50,000055;0,005;100,000000;300,000000;100,000000\n\
S1;2;A;100,000000;300,000040;100,000020;0,04;0,00;100,000025;0,005;100,000000;300,000000;100,000000\n\
S1;2;B;150,000040;350,000080;150,000060;0,04;0,00;150,000055;-0,005;100,000000;300,000000;100,000000\n",
    }
}

/// Three sets of targets A, B,"1 and C, of which the second is without the first and the third
/// without the second. A is read across 0. From A the others are at 10000009 1/3 and 30000009 13/15
/// half units, and the residuals are -61/3, 79/3, -6, -79/3, 79/3, 61/3 and -61/3 of 0.001 mgon.
pub fn s4() -> Worked {
    Worked {
        gsi: b"410001+00000010 42....+000000S4\n\
410002+00000020 42....+00000001\n\
110003+0000000A 21.102+39999999 22.102+10000000\n\
110004+0000B,\"1 21.102+05000003 22.102+09000000\n\
110005+0000000C 21.102+15000003 22.102+10000000\n\
110006+0000000C 21.102+35000004 22.102+30000000\n\
110007+0000B,\"1 21.102+24999997 22.102+31000015\n\
110008+0000000A 21.102+20000001 22.102+30000000\n\
410009+00000020 42....+00000007\n\
110010+0000B,\"1 21.102+25000005 22.102+09000000\n\
110011+0000000C 21.102+35000010 22.102+10000000\n\
110012+0000000C 21.102+14999990 22.102+30000000\n\
110013+0000B,\"1 21.102+05000005 22.102+30999996\n\
410014+00000020 42....+00000012\n\
110015+0000000A 21.102+10000001 22.102+10000000\n\
110016+0000000C 21.102+25000005 22.102+10000000\n\
110017+0000000C 21.102+05000015 22.102+30000000\n\
110018+0000000A 21.102+30000001 22.102+29999999\n\
410019+00000030\n",
        name: b"S4",
        before: b"station_check 1.0.0: report of the sets of a station\n\
\n\
Field file            field.gsi\n\
Station               S4\n\
Sets                  3\n\
Targets               3\n\
Two-face directions   7\n\
Missing directions    2\n\
\x20 A                   in set 7\n\
\x20 B,\"1                in set 12\n\
Limit of 2c           1.00 mgon\n\
Limit of 2i           1.00 mgon\n\
Limit of residuals    10.000 mgon\n\
\n\
Readings in gon, mean of both faces counted from the first row of the set,\n\
2c and 2i in mgon\n\
\n\
\x20 Set  Target               Face I    Face II         Mean        2c        2i\n\
\n\
\x20   1  A                 399.99999  200.00001     0.000000      0.02      0.00\n\
\x20   1  B,\"1               50.00003  249.99997    50.000000     -0.06      0.15\n\
\x20   1  C                 150.00003  350.00004   150.000035      0.01      0.00\n\
\n\
\x20   7  B,\"1              250.00005   50.00005     0.000000      0.00     -0.04\n\
\x20   7  C                 350.00010  149.99990    99.999950     -0.20      0.00\n\
\n\
\x20  12  A                 100.00001  300.00001     0.000000      0.00     -0.01\n\
\x20  12  C                 250.00005   50.00015   150.000090      0.10      0.00\n\
\n\
\x20 Mean                                                         -0.02      0.01\n\
\x20 Half of the mean: collimation and index error                -0.01      0.01\n\
\x20 Spread: the greatest less the least                           0.30      0.19\n\
\n\
Zenith angles in gon, mean of both faces\n\
\n\
\x20 Set  Target               Face I    Face II         Mean\n\
\n\
\x20   1  A                 100.00000  300.00000   100.000000\n\
\x20   1  B,\"1               90.00000  310.00015    89.999925\n\
\x20   1  C                 100.00000  300.00000   100.000000\n\
\n\
\x20   7  B,\"1               90.00000  309.99996    90.000020\n\
\x20   7  C                 100.00000  300.00000   100.000000\n\
\n\
\x20  12  A                 100.00000  299.99999   100.000005\n\
\x20  12  C                 100.00000  300.00000   100.000000\n\
\n\
Mean of the sets of each target in gon, standard deviation of the mean in mgon\n\
\n\
\x20 Target            Sets         Mean  Standard deviation\n\
\n\
\x20 A                    2   100.000003               0.003\n\
\x20 B,\"1                 2    89.999973               0.048\n\
\x20 C                    3   100.000000               0.000\n\
\n\
Adjusted directions in gon, by least squares, counted from the first target\n\
\n\
\x20 Target              Direction\n\
\n\
\x20 A                    0.000000\n\
\x20 B,\"1                50.000047\n\
\x20 C                  150.000049\n",
        after: b"\n\
Residuals in mgon: adjusted direction less two-face direction\n\
\n\
\x20 Target      Set        1       7      12\n\
\n\
\x20 A                 -0.020       -   0.020\n\
\x20 B,\"1               0.026  -0.026       -\n\
\x20 C                 -0.006   0.026  -0.020\n\
\n\
Greatest residual     0.026 mgon, set 1, target B,\"1\n\
Degrees of freedom    2\n\
Sum of squares [vv]   0.003357 mgon^2\n\
Standard deviation    0.041 mgon, of one two-face direction\n\
Standard deviation    left out of adjusted directions: a set lacks a target\n",
        rows: b"station,set,target,face one,face two,direction,2c,2i,adjusted,residual,\
         zenith one,zenith two,zenith mean\n\
S4,1,A,399.999990,200.000010,0.000000,0.02,0.00,399.999980,-0.020,100.000000,300.000000,100.000000\n\
S4,1,\"B,\"\"1\",50.000030,249.999970,50.000000,-0.06,0.15,50.000026,0.026,90.000000,310.000150,89.999925\n\
S4,1,C,150.000030,350.000040,150.000035,0.01,0.00,150.000029,-0.006,100.000000,300.000000,100.000000\n\
S4,7,\"B,\"\"1\",250.000050,50.000050,250.000050,0.00,-0.04,250.000024,-0.026,90.000000,309.999960,90.000020\n\
S4,7,C,350.000100,149.999900,350.000000,-0.20,0.00,350.000026,0.026,100.000000,300.000000,100.000000\n\
S4,12,A,100.000010,300.000010,100.000010,0.00,-0.01,100.000030,0.020,100.000000,299.999990,100.000005\n\
S4,12,C,250.000050,50.000150,250.000100,0.10,0.00,250.000080,-0.020,100.000000,300.000000,100.000000\n",
        semicolon_rows: b"station;set;target;face one;face two;direction;2c;2i;adjusted;residual;\
         zenith one;zenith two;zenith mean\n\
S4;1;A;399,999990;200,000010;0,000000;0,02;0,00;399,999980;-0,020;100,000000;300,000000;100,000000\n\
S4;1;\"B,\"\"1\";50,000030;249,999970;50,000000;-0,06;0,15;50,000026;0,026;90,000000;310,000150;89,999925\n\
S4;1;C;150,000030;350,000040;150,000035;0,01;0,00;150,000029;-0,006;100,000000;300,000000;100,000000\n\
S4;7;\"B,\"\"1\";250,000050;50,000050;250,000050;0,00;-0,04;250,000024;-0,026;90,000000;309,999960;90,000020\n\
S4;7;C;350,000100;149,999900;350,000000;-0,20;0,00;350,000026;0,026;100,000000;300,000000;100,000000\n\
S4;12;A;100,000010;300,000010;100,000010;0,00;-0,01;100,000030;0,020;100,000000;299,999990;100,000005\n\
S4;12;C;250,000050;50,000150;250,000100;0,10;0,00;250,000080;-0,020;100,000000;300,000000;100,000000\n",
    }
}

/// A set of targets A and B, which is the first of S1: B is 50.00002 gon from A, and nothing says
/// otherwise.
pub const ONE_SET: &[u8] = b"410001+00000010 42....+000000S1\n\
410002+00000020 42....+00000001\n\
110003+0000000A 21.102+00000000 22.102+10000000\n\
110004+0000000B 21.102+05000000 22.102+10000000\n\
110005+0000000B 21.102+25000010 22.102+30000000\n\
110006+0000000A 21.102+20000006 22.102+29999998\n\
410007+00000030\n";

/// How the report of that set ends.
pub const NOTHING_TO_COMPARE: &[u8] = b"\n\
\x20 A                    0.000000\n\
\x20 B                   50.000020\n\
\n\
Degrees of freedom    0: no angle was measured twice, nothing to compare\n";

/// Target A in three sets: its zenith angles are 0, 5 and 20 units of 0.000001 gon above 100 gon,
/// their mean 25/3, the residuals 25/3, 10/3 and -35/3, and the standard deviation of the mean is
/// the root of 325/9, which is 6.009. Target B stands in one set alone.
pub const ZENITHS: &[u8] = b"410001+00000010 42....+000000S1\n\
410002+00000020 42....+00000001\n\
110003+0000000A 21.102+00000000 22.102+10000000\n\
110004+0000000A 21.102+20000000 22.102+30000000\n\
410005+00000020 42....+00000002\n\
110006+0000000A 21.102+00000000 22.102+10000001\n\
110007+0000000B 21.102+05000000 22.102+05000007\n\
110008+0000000B 21.102+25000000 22.102+34999996\n\
110009+0000000A 21.102+20000000 22.102+30000000\n\
410010+00000020 42....+00000003\n\
110011+0000000A 21.102+00000000 22.102+10000003\n\
110012+0000000A 21.102+20000000 22.102+29999999\n\
410013+00000030\n";

/// How the report of that station ends, from its zenith angles on.
pub const FROM_ZENITHS: &[u8] = b"\n\
Zenith angles in gon, mean of both faces\n\
\n\
\x20 Set  Target               Face I    Face II         Mean\n\
\n\
\x20   1  A                 100.00000  300.00000   100.000000\n\
\n\
\x20   2  A                 100.00001  300.00000   100.000005\n\
\x20   2  B                  50.00007  349.99996    50.000055\n\
\n\
\x20   3  A                 100.00003  299.99999   100.000020\n\
\n\
Mean of the sets of each target in gon, standard deviation of the mean in mgon\n\
\n\
\x20 Target            Sets         Mean  Standard deviation\n\
\n\
\x20 A                    3   100.000008               0.006\n\
\x20 B                    1    50.000055                   -\n\
\n\
Adjusted directions in gon, by least squares, counted from the first target\n\
\n\
\x20 Target              Direction\n\
\n\
\x20 A                    0.000000\n\
\x20 B                   50.000000\n\
\n\
Degrees of freedom    0: no angle was measured twice, nothing to compare\n";

/// Why a station has neither a report nor rows: its field file, whether a read fails after the last
/// byte of that, the station's name, and the text of the refusal.
pub fn refused() -> [(&'static [u8], bool, &'static [u8], &'static [u8]); 4] {
    [
        (
            s1().gsi,
            false,
            b"S2",
            b"refused: no station\nthe file has S1\n",
        ),
        (s1().gsi, true, b"S1", b"refused: block 13: Read\n"),
        (
            TWO_PARTS,
            false,
            b"S2",
            b"refused: adjust: NotConnected\nthe sets fall into parts without a common target: read a target of one part in a set of another\n",
        ),
        (
            TIE,
            false,
            b"S3",
            b"refused: adjust: Residual 1\n\
set 1, A: the greatest residual, above the limit of 10.000 mgon\n",
        ),
    ]
}

/// The limits of face differences, and the largest of residuals.
pub fn limits(rt: &impl Abort) -> ResultLimits {
    ResultLimits::of_faces(Limits::new(100, 100).expect(rt, "limits"))
}

/// The same, with a limit of residuals in half units.
pub fn limits_with(rt: &impl Abort, residual: u32) -> ResultLimits {
    ResultLimits {
        residual: ResidualLimit::new(residual).expect(rt, "a limit"),
        ..limits(rt)
    }
}

/// Limits of residuals in half units at which S1 and S4 stand, and just below them: the line that
/// says the limit, or that of the refusal. The greatest residuals are 1 half unit and 79/15.
pub fn held() -> [(Worked, u32, Result<&'static [u8], &'static [u8]>); 4] {
    [
        (s1(), 1, Ok(b"Limit of residuals    0.005 mgon\n")),
        (
            s1(),
            0,
            Err(
                b"refused: adjust: Residual 1\n\
set 1, A: the greatest residual, above the limit of 0.000 mgon\n",
            ),
        ),
        (s4(), 6, Ok(b"Limit of residuals    0.030 mgon\n")),
        (
            s4(),
            5,
            Err(
                b"refused: adjust: Residual 2\n\
set 1, B,\"1: the greatest residual, above the limit of 0.025 mgon\n",
            ),
        ),
    ]
}

/// A text with another line in the place of each that begins so.
pub fn with_line(alloc: Global, text: &[u8], begins: &[u8], line: &[u8]) -> Result<Vec<u8>, Fail> {
    let mut changed = Vec::new(alloc);
    for old in text.split_inclusive(|&byte| byte == b'\n') {
        changed.extend_from_slice(if old.starts_with(begins) { line } else { old })?;
    }
    Ok(changed)
}

/// A reader that gives so many of these bytes at a time.
pub fn given(bytes: &[u8], step: usize, fails: bool) -> Script<'_> {
    Script::new(bytes, step.max(1), fails)
}

/// A sink with room for so many bytes, which takes a few at a time.
pub fn room_for(alloc: Global, room: usize, flush_fails: bool) -> Result<Held, Fail> {
    Ok(Held::new(alloc, room, 100, flush_fails)?)
}

/// These parts, one after the other.
pub fn joined(alloc: Global, parts: &[&[u8]]) -> Result<Vec<u8>, Fail> {
    let mut text = Vec::new(alloc);
    for part in parts {
        text.extend_from_slice(part)?;
    }
    Ok(text)
}

/// The report of a station without a table.
pub fn report_of(alloc: Global, worked: Worked) -> Result<Vec<u8>, Fail> {
    joined(alloc, &[worked.before, worked.after])
}
