//! What MESSAGES says of each code. `docs/develop/remedies.py` writes this file; change docs/use/MESSAGES.md instead.

/// The codes in the order of the page, each with its entry.
pub(crate) const ENTRIES: [(&str, &str); 49] = [
    (
        "usage",
        "usage: the arguments are not what the command takes, which `afdx COMMAND --help`
shows: no command, an argument or option that is missing, unknown or given twice
(`--link` alone may be), an empty IN or OUT, an argument that is not UTF-8, a
value out of range, a list of `--fail-on` with another word than `policed`,
`filtered` and `lost` or with one twice, or a code that `explain` does not know
Remedy: `afdx --help` has the commands, `afdx network --help` those of networks;
`docs/use/FORMATS.md` has the ranges
",
    ),
    (
        "A1",
        "A1 Latency: (`compare`) the option is above `latency_us` of the table, the
limit: the most that the switch takes; 0 if the table has none
Remedy: mend one of the two; `latency_us` needs `version = 3`
",
    ),
    (
        "A2",
        "A2 NoSuchPort: (`compare`) `--ports` or `--offset` names a port that is not in
the table
Remedy: mend the number
",
    ),
    (
        "A3",
        "A3 LeftOut: (`compare`) `--ports` leaves out the port that `--offset` names:
nothing is read there
Remedy: name the port in `--ports` too, or leave out its offset
",
    ),
    (
        "A4",
        "A4 Span: (`compare`) `--from` is after `--until` or after all stamps, or
`--until` is before all, so that nothing would be judged; if one of them is not
given, the first or the last of all stamps stands in its place, 0 if no frame
was recorded
Remedy: mend one of the two; both are stamps in ns, of 19 digits today; if no
frame was recorded, look for the right folders
",
    ),
    (
        "C2",
        "C2 Toml: not TOML: a quote or bracket is missing, a key is given twice, bytes
are not UTF-8, or it is the wrong file
Remedy: Python finds the line:
`python3 -c 'import tomllib; tomllib.load(open(\"table.toml\", \"rb\"))'`; if it
finds none, the file has what Python alone takes: a number past 64 bits, a float
as `1e999`, more than 80 brackets in one another, or a key of more than 80 parts
",
    ),
    (
        "C3",
        "C3 UnknownKey: a key that does not belong here; often a misspelling, `police` in
a table without `version`, or `latency_us` (`top`) in one without `version = 3`
Remedy: a port has `id`, `mbit`, `buffer`, `max_delay_us`; a link `id`, `from`,
`to`, `bag_ms`, `jitter_us`, `max_size`, `priority`, `police`; the top
`version`, `constant`, `latency_us`, `port`, `link`; a network file goes to
`afdx network check`
",
    ),
    (
        "C4",
        "C4 MissingKey: a key is missing; all keys of ports and links except `police` are
required
Remedy: write it
",
    ),
    (
        "C5",
        "C5 Kind: a text for a number, a number for a list, `[port]` for `[[port]]`
Remedy: `to = [2]`; numbers without quotes; they are whole, without a point
",
    ),
    (
        "C6",
        "C6 Range: the value is not one of the allowed ones
Remedy: `version` 1, 2 or 3; `latency_us` 0 to 100; a port's `id`, `from` and
each of `to` 1 to 24; `mbit` 10 or 100, with `version = 3` also 1000; `buffer` 0
to 16,777,216; `max_delay_us` 1 to 500,000; a link's `id` 0 to 65,535; `bag_ms`
1, 2, 4, 8, 16, 32, 64 or 128; `jitter_us` 0 to 10,000; `max_size` 64 to 1518;
`priority` `\"high\"` or `\"low\"`; `police` `\"byte\"` or `\"frame\"`
",
    ),
    (
        "C7",
        "C7 Constant: not 8 hexadecimal digits, or the first byte's two lowest bits are
not set
Remedy: `constant = \"03000000\"`
",
    ),
    (
        "C8",
        "C8 TwicePort: an earlier port has this `id`
Remedy: give one of the two its own number
",
    ),
    (
        "C9",
        "C9 TwiceLink: an earlier link has this `id`
Remedy: one link with all its outputs in `to`
",
    ),
    (
        "C10",
        "C10 NoSuchPort: `from` or `to` names a port that is not in the table
Remedy: write the port, or mend the number
",
    ),
    (
        "C11",
        "C11 ToEmpty: `to = []`
Remedy: leave out a link that leads nowhere
",
    ),
    (
        "C12",
        "C12 ToTwice: `to` names a port twice
Remedy: once
",
    ),
    (
        "C13",
        "C13 ToOwnPort: `to` names the link's own `from`
Remedy: leave it out: a frame does not go back to its port
",
    ),
    (
        "C14",
        "C14 TooMany: more than 24 ports, or 4096 links (`link`)
Remedy: a switch has no more; check the file
",
    ),
    (
        "P2",
        "P2 NoHeader: the file has fewer than 24 bytes; often it is empty
Remedy: check that it was recorded; `afdx-import` makes a capture without frames
for a port that only sends (`silent`); an output that was not recorded is left
out of `compare` by `--ports`
",
    ),
    (
        "P3",
        "P3 Magic: pcapng, a compressed file, or not a capture
Remedy: `afdx-import`
",
    ),
    (
        "P4",
        "P4 Version: another version of the format than 2.4
Remedy: `editcap -F nsecpcap`, if Wireshark reads it
",
    ),
    (
        "P5",
        "P5 LinkType: not Ethernet; 113 is what `tcpdump -i any` records, 276 what a
newer one does; a number above 65,535, as 1140850689, may say beside the type
that the frames have check sequences
Remedy: record at the interface itself; above 65,535 `afdx-import`, which takes
such a capture of Ethernet and takes the check sequences off
",
    ),
    (
        "P6",
        "P6 CutHeader: the file ends within a record
Remedy: the recording was cut off: `afdx-import` keeps the whole records
",
    ),
    (
        "P7",
        "P7 Huge: a record of more than 262,144 bytes: the file is damaged
Remedy: record again
",
    ),
    (
        "P8",
        "P8 Fraction: a stamp whose fraction makes a second or more: the file is damaged,
or its magic says microseconds and it has nanoseconds
Remedy: record again
",
    ),
    (
        "P9",
        "P9 Late: a stamp in the last second of 32 bits, in the year 2106: a clock that
was not set, or a damaged file
Remedy: record again
",
    ),
    (
        "P10",
        "P10 Backwards: the stamp is below that of the record before
Remedy: `afdx-import` sorts
",
    ),
    (
        "P11",
        "P11 CutData: the file ends within a record's bytes
Remedy: the recording was cut off: `afdx-import` keeps the whole records
",
    ),
    (
        "L1",
        "L1 Rate: the links ask for more than the line has
Remedy: fewer links, smaller frames, longer gaps, a faster line
",
    ),
    (
        "L2",
        "L2 Buffer: the buffer cannot hold what may wait
Remedy: `afdx size` prints the bytes that the table alone needs; a larger
buffer, less jitter; here the bytes are `need` divided by `2,048,000,000 * 80`
at 100 Mbit/s, by `* 800` at 10 Mbit/s, by `* 8` at 1000 Mbit/s, rounded up; in
`compare` and in networks the load is checked with the whole latency as scatter,
unless the switch's least latency is given: `--least-latency`, or
`least_latency_us` in the network file, if the switch's document has it
",
    ),
    (
        "L3",
        "L3 HighDelay: a frame of high priority may leave later than `max_delay_us`
(`need` and `limit` are in ns)
Remedy: a larger max_delay_us, smaller low frames; in `compare` and in networks
the load is checked with the whole latency as scatter, unless the switch's least
latency is given: `--least-latency`, or `least_latency_us` in the network file,
if the switch's document has it
",
    ),
    (
        "L4",
        "L4 LowDelay: a frame of low priority may leave later than `max_delay_us` (`need`
and `limit` are in ns)
Remedy: a larger max_delay_us, fewer high links; in `compare` and in networks
the load is checked with the whole latency as scatter, unless the switch's least
latency is given: `--least-latency`, or `least_latency_us` in the network file,
if the switch's document has it
",
    ),
    (
        "G1",
        "G1 Toml: the network file is not TOML: a quote or bracket is missing, a key is
given twice, bytes are not UTF-8, or it is the wrong file
Remedy: Python finds the line:
`python3 -c 'import tomllib; tomllib.load(open(\"network.toml\", \"rb\"))'`; if it
finds none, the file has what Python alone takes: a number past 64 bits, a float
as `1e999`, more than 80 brackets in one another, or a key of more than 80 parts
",
    ),
    (
        "G2",
        "G2 UnknownKey: a key that does not belong here
Remedy: a wire has `from`, `to`, `delay_ns`, `down`; a switch has `name`,
`table`, `least_latency_us`, `down`; the top has `version`, `one_line`,
`switch`, `wire`; a table goes to `afdx check`
G2 MissingKey: a key of a switch or of a wire is missing; only `delay_ns`,
`least_latency_us` and `down` may be left out
Remedy: write it
G2 Kind: a number for a text, or the other way round; `[wire]` for `[[wire]]`; a
`down` or `one_line` that is neither `true` nor `false`
Remedy: `from = \"A.3\"`; numbers are whole, without a point
G2 Range: a name that is empty, of more than 16 letters, digits, `-` and `_`, or
with other characters; an empty `table`; an end that is not NAME, a dot and a
number from 1 to 24; a delay below 0 or above 1,000,000 ns; a least latency
below 0 or above 100 µs; another `version` than 1; more than 64 switches
Remedy: `docs/use/FORMATS.md` has the ranges
",
    ),
    (
        "G3",
        "G3 TwiceSwitch: an earlier switch has this name
Remedy: give one of the two its own name
G3 NoSuchSwitch: an end names a switch that is not in the file
Remedy: mend the name
G3 TwiceFrom: an earlier wire comes from this output port
Remedy: an output port has at most one wire
G3 TwiceTo: an earlier wire goes to this ingress port
Remedy: an ingress port has at most one wire
G3 OwnPort: a wire goes to the port that it comes from
Remedy: leave it out
G3 NoSuchPort: an end is no port of its switch's table
Remedy: write the port there, or mend the number
G3 Latency: `least_latency_us` of this switch is above the `latency_us` of its
table, which is the most that it takes
Remedy: mend one of the two
",
    ),
    (
        "G4",
        "G4 Constant: the tables at the two ends have different constant fields
Remedy: the same `constant` in both
G4 Speed: the ports at the two ends have different speeds
Remedy: the same `mbit` in both
",
    ),
    (
        "G5",
        "G5 NoRow: the first switch sends the link over the wire, but the second one's
table has no such link
Remedy: a `[[link]]` with this `id` there, or another `to` at the first; or the
wire names another port than its cable has: mend the `[[wire]]`, not the tables
",
    ),
    (
        "G6",
        "G6 From: in the second table the link comes in at another port
Remedy: its `from` must be the wire's end; or the wire names another port than
its cable has: mend the `[[wire]]`, not the tables
",
    ),
    (
        "G7",
        "G7 Size: the two tables differ in `max_size`
Remedy: the same
G7 Bag: they differ in `bag_ms`
Remedy: the same
G7 Police: they differ in `police`
Remedy: the same
",
    ),
    (
        "G8",
        "G8 NoSource: the way back from this row ends at a wire over which no switch
sends the link, or goes round in a ring
Remedy: add the port to the link's `to` at the switch before, or remove the link
here
",
    ),
    (
        "G9",
        "G9 TwiceSource: the ports of two end systems feed the same number; a port to
which no wire goes counts as an end system's
Remedy: another number for one of the two; or a wire is missing (a cable is two
wires, one for each direction), or names another port: mend the `[[wire]]`, not
the tables
",
    ),
    (
        "J1",
        "J1 Jitter: delays on the link's way may differ by more than its jitter at this
switch allows, so frames may be policed there (`need` and `has` are in µs)
Remedy: set `jitter_us` of the link in this switch's table to at least `need`;
`afdx network jitter` prints the least of all rows; no table can have more than
10,000: then smaller frames, longer gaps, fewer links on one cable, faster lines
",
    ),
    (
        "J2",
        "J2 NoJitter: (`network jitter`) a link needs more than the 10,000 µs that a
table can have; each such row of the turn in which the first one came to need so
much
Remedy: smaller frames, longer gaps, fewer links on one cable, faster lines
",
    ),
    (
        "R2",
        "R2 Line: (`network run`, `measure`, `survey`, `trace`) the network file has
`one_line = true`, and this record, counted from 1, came sooner after those
before it than a line of the port's speed can have brought it, even if each
stamp lacks up to 999 ns; nothing was put
Remedy: two lines or both directions in one capture, or clocks of two recorders:
one capture for each port; stamps have to be of the frames' ends, and no coarser
than a microsecond; or no `one_line`, with larger bounds
",
    ),
    (
        "get",
        "device get: the file, a table, a network file or a capture, does not exist, is a
folder or cannot be read, or too many files are open; nothing was run
Remedy: mend the name; one capture for each port of the table, also for a port
that only sends; `compare`: `--ports` with the outputs that were recorded, no
empty capture for another; `ulimit -n 4096` lets more files be open
",
    ),
    (
        "put",
        "device put: the file cannot be written: the folder does not exist (none is
made), no permission, no room (new files exist beside older ones until the run
is over), a limit of a file's size, too many files are open, a folder has the
file's name, OUT is IN (no file that was read is replaced), or another run is
putting files there
Remedy: `mkdir -p out`, another OUT, `ulimit -n 4096`, or once more when the
other run has ended; nothing has changed, unless it was the move onto the name
that failed: then captures of lower ports are there, in a network also those of
earlier switches. There is no report; `trace` puts `out/arrivals.csv` and then
`out/departures.csv`
",
    ),
    (
        "read",
        "device read: standard input cannot be read (`alone`)
Remedy: a file, not a folder
",
    ),
    (
        "write",
        "device write: standard output cannot be written
Remedy: make room on the disk; after `run` all captures are there
",
    ),
    (
        "memory",
        "memory: out of memory
Remedy: `docs/develop/PERFORMANCE.md` has what runs took; shorter captures, or
more memory
",
    ),
];
