// Runs of `psr_part`, and an observation that is searched in two parts.
mod cases;
mod files;
mod joined;
mod running;
