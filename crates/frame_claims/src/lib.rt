// The claims about frames: a frame that is written is read back to the same fields, a frame that is
// read is written back to the same bytes, a refused call changes nothing, and a refused reading
// names the first wrong byte. They are stated twice: of the calls of `frame`, and of those of
// `frame_writer` and `frame_reader`, which take lent bytes for a packet. specs/ states them,
// proofs/ proves them. There is no code here.
#![tactic(auto)]
