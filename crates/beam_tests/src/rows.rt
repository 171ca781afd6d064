// Whole runs: on each line the arguments WITHIN and MORE; the arguments after those of every run; the numbers of the
// calls that fail, how much room there is, if it is little, and of some how many calls of all inputs were made; the
// status; and the output and the line on the notes, with `;` for the end of a line.

/// Beams that are searched to their ends.
pub(crate) const SEARCHED: &str = "
0 1 | pulse pulse zeros | calls 12 | 0 | \
    BEAM 0;RFI 1 1 0.104 1 30 3;END 1 0 3;BEAM 1;RFI 1 1 0.104 1 30 3;END 1 0 3;BEAM 2;END 0 0 3;
0 2 | pulse pulse zeros | | 0 | \
    BEAM 0;PULSE 1 1 0.104 1 30 3;END 1 0 3;BEAM 1;PULSE 1 1 0.104 1 30 3;END 1 0 3;BEAM 2;END 0 0 3;
0 1 | pulse later | | 0 | BEAM 0;PULSE 1 1 0.104 1 30 3;END 1 0 3;BEAM 1;PULSE 2 1 0.104 1 30 3;END 1 0 3;
1 1 | pulse later | | 0 | BEAM 0;RFI 1 1 0.104 1 30 3;END 1 0 3;BEAM 1;RFI 2 1 0.104 1 30 3;END 1 0 3;
1 2 | pulse later | | 0 | BEAM 0;PULSE 1 1 0.104 1 30 3;END 1 0 3;BEAM 1;PULSE 2 1 0.104 1 30 3;END 1 0 3;
1 2 | pulse later pulse | | 0 | BEAM 0;RFI 1 1 0.104 1 30 3;END 1 0 3;\
    BEAM 1;RFI 2 1 0.104 1 30 3;END 1 0 3;BEAM 2;RFI 1 1 0.104 1 30 3;END 1 0 3;
00000 00001 | pulse pulse | | 0 | BEAM 0;RFI 1 1 0.104 1 30 3;END 1 0 3;BEAM 1;RFI 1 1 0.104 1 30 3;END 1 0 3;
65536 1 | zeros pulse | | 0 | BEAM 0;END 0 0 3;BEAM 1;PULSE 1 1 0.104 1 30 3;END 1 0 3;
65536 6 | pulse pulse pulse pulse pulse pulse pulse | calls 28 | 0 | \
    BEAM 0;RFI 1 1 0.104 1 30 3;END 1 0 3;BEAM 1;RFI 1 1 0.104 1 30 3;END 1 0 3;\
    BEAM 2;RFI 1 1 0.104 1 30 3;END 1 0 3;BEAM 3;RFI 1 1 0.104 1 30 3;END 1 0 3;\
    BEAM 4;RFI 1 1 0.104 1 30 3;END 1 0 3;BEAM 5;RFI 1 1 0.104 1 30 3;END 1 0 3;\
    BEAM 6;RFI 1 1 0.104 1 30 3;END 1 0 3;
65536 6 | pulse pulse pulse pulse pulse pulse zeros | | 0 | \
    BEAM 0;PULSE 1 1 0.104 1 30 3;END 1 0 3;BEAM 1;PULSE 1 1 0.104 1 30 3;END 1 0 3;\
    BEAM 2;PULSE 1 1 0.104 1 30 3;END 1 0 3;BEAM 3;PULSE 1 1 0.104 1 30 3;END 1 0 3;\
    BEAM 4;PULSE 1 1 0.104 1 30 3;END 1 0 3;BEAM 5;PULSE 1 1 0.104 1 30 3;END 1 0 3;BEAM 6;END 0 0 3;
0 1 | rising rising | | 0 | BEAM 0;RFI 1 1 0.104 1 30 3;END 1 0 3;BEAM 1;RFI 1 1 0.104 1 30 3;END 1 0 3;
0 1 | wide wide | | 0 | BEAM 0;RFI 1 1 0.104 1 30 3;END 1 0 3;BEAM 1;RFI 1 1 0.104 1 30 3;END 1 0 3;
0 1 | two_pol two_pol | | 0 | BEAM 0;RFI 1 1 0.104 1 30 3;END 1 0 3;BEAM 1;RFI 1 1 0.104 1 30 3;END 1 0 3;
0 1 | empty empty | calls 6 | 0 | BEAM 0;END 0 0 0;BEAM 1;END 0 0 0;
0 1 | empty pulse | | 0 | BEAM 0;END 0 0 0;BEAM 1;PULSE 1 1 0.104 1 30 3;END 1 0 3;
0 1 | pulse ragged | | 0 | BEAM 0;RFI 1 1 0.104 1 30 3;END 1 0 3;BEAM 1;RFI 1 1 0.104 1 30 3;END 1 0 4;
0 1 | at_four at_four | | 0 | BEAM 0;RFI 1 1 0.104 1 30 3;END 1 0 3;BEAM 1;RFI 1 1 0.104 1 30 3;END 1 0 3;
0 1 | other_time pulse | | 0 | BEAM 0;RFI 1 1 0.104 1 30 3;END 1 0 3;BEAM 1;RFI 1 1 0.104 1 30 3;END 1 0 3;
0 1 | --shards 2 pulse pulse | | 0 | BEAM 0;RFI 1 1 0.104 1 30 3;END 1 0 3;BEAM 1;RFI 1 1 0.104 1 30 3;END 1 0 3;
0 1 | --hands 9 --file-size 4 pulse pulse | | 0 | \
    BEAM 0;RFI 1 1 0.104 1 30 3;END 1 0 3;BEAM 1;RFI 1 1 0.104 1 30 3;END 1 0 3;
0 1 | --max-bytes 6 --max-candidates 1 pulse pulse | | 0 | \
    BEAM 0;RFI 1 1 0.104 1 30 3;END 1 0 3;BEAM 1;RFI 1 1 0.104 1 30 3;END 1 0 3;
0 1 | --size 1 --buffers 2 --turns 1 pulse pulse | calls 18 | 0 | \
    BEAM 0;RFI 1 1 0.104 1 30 3;END 1 0 3;BEAM 1;RFI 1 1 0.104 1 30 3;END 1 0 3;
0 1 | --fold-max 2 --fold-rows 1 --fold-step 1 train train | | 0 | \
    BEAM 0;RFI 1 1 0.104 1 30 3;RFI 3 1 0.104 1 30 3;RFI 5 1 0.104 1 30 3;RFI 7 1 0.104 1 30 3;\
    FOLD 0 0.000 2 2 0 1 40 4;FOLD 1 0.104 2 2 0 0 60 6;FOLD 1 0.104 2 2 1 0 50 6;FOLD 1 0.104 2 2 1 1 50 6;\
    END 4 4 8;\
    BEAM 1;RFI 1 1 0.104 1 30 3;RFI 3 1 0.104 1 30 3;RFI 5 1 0.104 1 30 3;RFI 7 1 0.104 1 30 3;\
    FOLD 0 0.000 2 2 0 1 40 4;FOLD 1 0.104 2 2 0 0 60 6;FOLD 1 0.104 2 2 1 0 50 6;FOLD 1 0.104 2 2 1 1 50 6;\
    END 4 4 8;
2 1 | --fold-max 2 --fold-rows 1 --fold-step 1 train pulse | | 0 | \
    BEAM 0;RFI 1 1 0.104 1 30 3;RFI 3 1 0.104 1 30 3;PULSE 5 1 0.104 1 30 3;PULSE 7 1 0.104 1 30 3;\
    FOLD 0 0.000 2 2 0 1 40 4;FOLD 1 0.104 2 2 0 0 60 6;FOLD 1 0.104 2 2 1 0 50 6;FOLD 1 0.104 2 2 1 1 50 6;\
    END 4 4 8;BEAM 1;RFI 1 1 0.104 1 30 3;END 1 0 3;
";

/// Beams that are refused, or stop, and what counts first.
pub(crate) const STOPPED: &str = "
0 1 | pulse at_four | calls 4 | 7 | | file 1 has OBS_OFFSET 4 where 0 was expected;
0 1 | at_four at_four pulse | | 7 | | file 2 has OBS_OFFSET 0 where 4 was expected;
0 1 | pulse slower | calls 4 | 3 | | header of file 1 refused: Differs TSAMP;
0 1 | pulse pulse rising | | 3 | | header of file 2 refused: Differs BW;
0 1 | pulse at_four slower | | 7 | | file 1 has OBS_OFFSET 4 where 0 was expected;
0 1 | pulse slower at_four | | 3 | | header of file 1 refused: Differs TSAMP;
0 1 | pulse no_number | | 3 | | header of file 1 refused: Differs TSAMP;
0 1 | pulse no_nchan | | 3 | | header of file 1 refused: Differs NCHAN;
0 1 | no_number pulse | | 3 | | header of file 0 refused: BadNumber TSAMP;
0 1 | pulse negative | | 3 | | header of file 1 refused: OutOfRange OBS_OFFSET;
0 1 | no_nchan pulse | | 3 | | header of file 0 refused: Missing NCHAN;
0 1 | no_nchan slower | | 3 | | header of file 0 refused: Missing NCHAN;
0 1 | no_nchan pulse short | calls 7 | 3 | | header of file 2 refused: Short 4095;
0 1 | no_nchan not_text | | 3 | | header of file 1 refused: NotText 16;
0 1 | pulse short missing | calls 5 | 3 | | header of file 1 refused: Short 4095;
0 1 | short pulse | beam 1, input 0 | 3 | | header of file 0 refused: Short 4095;
0 1 | pulse short | beam 0, input 1 | 6 | | read fault;
0 1 | no_nchan pulse | beam 1, input 0 | 6 | | read fault;
0 1 | missing short | calls 1 | 6 | | read fault;
0 1 | pulse missing | calls 3 | 6 | | read fault;
0 1 | --shards 3 pulse slower | | 3 | | header of file 1 refused: Differs TSAMP;
0 1 | --shards 3 pulse at_four | | 7 | | file 1 has OBS_OFFSET 4 where 0 was expected;
0 1 | --shards 3 pulse pulse | calls 4 | 4 | | plan refused: TooManyShards 3 2;
0 1 | --shards 3 pulse pulse | beam 1, input 1 | 6 | | read fault;
0 1 | --max-bytes 5 pulse pulse | | 8 | | more than 5 bytes;
0 1 | --max-bytes 5 empty pulse | | 8 | | more than 5 bytes;
0 1 | --max-bytes 5 pulse pulse | beam 0, input 2 | 6 | | read fault;
0 1 | --max-bytes 5 pulse pulse | beam 1, input 2 | 8 | | more than 5 bytes;
0 1 | --max-bytes 6 pulse train pulse | | 8 | | more than 6 bytes;
0 1 | --max-bytes 6 pulse train pulse | beam 2, input 2 | 8 | | more than 6 bytes;
0 1 | --max-bytes 6 pulse train pulse | beam 0, input 2 | 6 | | read fault;
0 1 | --max-bytes 5 --max-candidates 0 zeros pulse | | 8 | | more than 5 bytes;
0 1 | --max-candidates 0 pulse pulse | | 9 | | 1 candidates, limit 0;
0 1 | --max-candidates 0 zeros pulse | | 9 | | 1 candidates, limit 0;
0 1 | --max-candidates 0 train pulse | | 9 | | 4 candidates, limit 0;
0 1 | --max-candidates 1 pulse train | | 9 | | 4 candidates, limit 1;
0 1 | --max-candidates 0 pulse pulse | beam 1, input 2 | 6 | | read fault;
0 1 | --max-candidates 0 pulse pulse | out 0 | 9 | | 1 candidates, limit 0;
0 1 | pulse slower | note 0 | 3 | |
0 1 | pulse slower | note_room 6 | 3 | |
0 1 | pulse pulse | out 0 | 10 | | sink fault;
0 1 | pulse pulse | out_room 6 | 10 | | sink fault;
0 1 | pulse pulse | out_room 7 | 10 | BEAM 0; | sink fault;
0 1 | pulse pulse | out 1, note 0 | 10 | BEAM 0; |
";

/// Arguments that are refused.
pub(crate) const REFUSED: &str = "
0 1 | pulse | calls 0 | 2 | | words refused;
0 1 | pulse pulse pulse pulse pulse pulse pulse pulse | calls 0 | 2 | | words refused;
0 1 | pulse + pulse | | 2 | | words refused;
0 1 | --record pulse pulse | | 2 | | words refused;
0 1 | --snr 7 pulse pulse | | 2 | | words refused;
0 1 | --min-delay 9 pulse pulse | | 2 | | option --min-delay refused;
0 1 | --min-delay 9 pulse | | 2 | | option --min-delay refused;
0 1 | --record --min-delay 9 pulse | | 2 | | option --min-delay refused;
0 1 | pulse + | | 2 | | option FILE refused;
0 9 | --min-delay 9 pulse | | 2 | | words refused;
0 0 | pulse pulse | calls 0 | 2 | | words refused;
0 7 | pulse pulse | | 2 | | words refused;
0 000001 | pulse pulse | | 2 | | words refused;
0 -1 | pulse pulse | | 2 | | words refused;
0 1.0 | pulse pulse | | 2 | | words refused;
65537 1 | pulse pulse | | 2 | | words refused;
99999 1 | pulse pulse | | 2 | | words refused;
000000 1 | pulse pulse | | 2 | | words refused;
+1 1 | pulse pulse | | 2 | | words refused;
-1 1 | pulse pulse | | 2 | | words refused;
a 1 | pulse pulse | | 2 | | words refused;
1 0 | pulse pulse | | 2 | | words refused;
0 | pulse pulse | | 2 | | words refused;
 | pulse pulse | | 2 | | words refused;
0 1 2 | pulse pulse | calls 1 | 6 | | read fault;
";
