mod blocks;
mod callers;
mod contexts;
mod footprint;
mod kinds;
mod trees;
