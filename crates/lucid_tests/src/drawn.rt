// Tests on drawn code, from fixed seeds. The code is valid, and much of it is unlike the code of programs.
mod codes;
mod draws;
mod interpreted;
mod passes;
mod pipes;
mod whole;
