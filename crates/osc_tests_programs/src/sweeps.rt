//! Sweeps of hostile use over whole scripts, by what their traces say: datagrams altered bit by bit and cut at each byte, restarts at
//! each place, and scripts that are drawn.
mod altered;
mod beginnings;
mod drawing;
mod drawn;
mod first_answer;
mod restarts;
mod traces;
