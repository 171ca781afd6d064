// Runs of `psr_level`, whose files are those of its definition.
mod cases;
mod cuts;
mod files;
mod running;
