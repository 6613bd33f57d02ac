//! What help prints for all programs: the version, the faults of files, the refusals and the exit statuses.

/// The version of the programs.
pub const VERSION: &str = "0.1.0";

/// The text that `cogread --help` prints after its options.
pub const READ_NOTES: &str = "\
Example:
  cogtools cogread http://127.0.0.1:8080/a.tif
  cogtools cogread info 127.0.0.1:8080 a.tif

A URL or the path of a file of the disk is described where it stands alone. In each command,
http://HOST[:PORT]/PATH[?QUERY] or such a path may stand for SERVER NAME.

A fault of the file is printed as `fault N`, or as `fault N TAG` where it is about one field:
   1  Header       No classic TIFF: the byte order or the number 42 is wrong
   2  PastEnd      Bytes that are needed end after the file
   3  DirPlace     A directory's offset is odd or below 8
   4  DirCount     A directory has no entries, or more than 256
   5  TagOrder     The tags of a directory don't ascend
   6  TooManyDirs  More than 16 directories
   7  Missing      A level lacks this field
   8  FieldType    This field has another type or count
   9  Unsupported  A value of this field isn't read
  10  LevelShape   A side is 0, the first image is a reduced one, or a level isn't smaller than the one before
  11  TileArray    The array of tiles has not as many values as there are tiles, or more than 65536
  12  TileSize     A tile's side, plain size or byte count is wrong
  13  Packet       The packed bytes of a tile are no packets that fill it exactly, row by row
  14  Outside      The window is empty or passes its level, there is no such level, or 0 columns are asked for
  15  TooLarge     More than 4194304 samples, or a geo field of more than 65536 bytes
  16  KeyHead      The geo keys' version, revision or length is wrong
  17  KeyOrder     The geo keys don't ascend
  18  KeyPlace     A geo key's values aren't where it says

Exit status:
  0  The report is written
  1  A file can't be read, standard output or the file of --output can't be written, or out of memory
  2  The words aren't those above, a URL names no file of a server, or `refused N`: 1 the server, 2 the name
     Or --bounds meets no pixel, or --bounds or --world stand and the file doesn't say where its pixels lie
  3  A fault of the file
  4  `no report`: no request brought one";

/// The text that `cogserve --help` prints after its options.
pub const SERVE_NOTES: &str = "\
Example:
  cogtools cogserve --listen 127.0.0.1:8080 --epoch 1 --connections 100 a.tif=/data/a.tif

A file that isn't published is printed as `refused N NAME`:
  1  The name has other bytes than A-Z a-z 0-9 . _ - / or not 1 to 200 of them
  2  The file is empty
  3  The file has more than 67108864 bytes
  4  There are 64 names already
  5  The epoch's 4294967295 publications are used up

Exit status:
  0  All connections are served
  1  A file can't be read or is refused, can't listen, accept or write, or out of memory
  2  The words aren't those above";

/// The text that `cogserve --help` prints after its options, for the form in which each may be left out.
pub const QUICK_NOTES: &str = "\
Example:
  cogtools cogserve a.tif b=/data/b.tif
  cogtools cogserve --listen 127.0.0.1:8080 --epoch 1 --connections 100 a.tif=/data/a.tif

A FILE's name is the last part of its path, in which bytes that no name has become `_`. Two files of one name are
refused. The URL of each file is printed, in a line of its own, and --announce-last is on. Where --listen, --epoch and
--connections all stand, none of this holds: each file is NAME=PATH.

Exit status:
  0  All connections are served
  1  A file can't be read or is refused, can't listen, accept or write, no clock, or out of memory
  2  The words aren't those above, or two files have one name";

/// The text that `cogworld --help` prints after its options.
pub const WORLD_NOTES: &str = "\
Example:
  cogtools cogworld late.txt

Exit status:
  0  The log is written
  1  A file can't be read, standard output can't be written, or out of memory
  2  The words aren't those above, or a line of the script is no event";
