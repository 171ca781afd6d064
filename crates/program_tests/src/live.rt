// Runs of `psr_live`, and its texts against those of the other programs.
mod cases;
mod faults;
mod files;
mod joined;
mod running;
